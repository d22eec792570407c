//! Laws of dumps.
ghost use Rattle.nosy_dump.specs.OneText.{NoDumpHasTwoTexts, EachDumpHasAText};
ghost use Rattle.nosy_dump.specs.Told.{DumpsAreToldInOrder};

use reset_list::lists_are_judged_as_read;

/// A law: each dump has a text, no dump has two, and none is at fault and isn't. The text tells each reset of the dump
/// once, in order, by the verdict of `busconf read` or `read95` on the capture of its packets; and behind them in all
/// how many there are and how many lists were refused.
pub fn dumps_have_one_text()
    ensures one { NoDumpHasTwoTexts }
    ensures some { EachDumpHasAText }
    ensures told { DumpsAreToldInOrder }
{
    lists_are_judged_as_read();
}
