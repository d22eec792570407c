//! Laws of logs.
ghost use Rattle.reset_log.specs.OneText.{NoLogHasTwoTexts, EachLogHasAText};
ghost use Rattle.reset_log.specs.Told.{LogsAreToldInOrder};

use reset_list::{lists_are_judged_as_read, losses_are_counted, shortest_times_are_kept};

/// A law: each log has a text, no log has two, and none is at fault and isn't. The text tells each reset of the log
/// once, in order, by the verdict of `busconf read` or `read95` on the capture of its list; and behind them in all how
/// many were counted and how many lists were refused, and in the short form how often each port lost the node that
/// hung on it, and the shortest time until it had one again.
pub fn logs_have_one_text()
    ensures one { NoLogHasTwoTexts }
    ensures some { EachLogHasAText }
    ensures told { LogsAreToldInOrder }
{
    lists_are_judged_as_read();
    losses_are_counted();
    shortest_times_are_kept();
}
