//! Words and numbers of a text.
ghost use Rattle.std.specs.Prelude.{◌≡◌, ◌++◌, OnOk};
ghost use Rattle.topology_stack.specs.Text.{truth};
ghost use Rattle.view_text.specs.Packet.{field, reserved};

use topology_stack::{OutOfMemory, put_number};

/// Appends a word and a number, in decimal digits without leading zeros.
#[tactic(auto, unfolding(crate::specs::Packet::field))]
pub fn put_field(out: &mut Vec<u8>, word: &[u8], n: u64) -> Result<(), OutOfMemory>
    ensures { OnOk result (out.new.items ≡ out.old.items ++ field word.now n) }
{
    out.extend_from_slice(word)?;
    put_number(out, n)
}

/// 1 for `true`, 0 for `false`.
pub(crate) fn truth(flag: bool) -> u64
    ensures { result ≡ truth flag }
{
    if flag { 1 } else { 0 }
}

/// Appends a word and 1 for `true`, 0 for `false`.
pub(crate) fn put_flag(out: &mut Vec<u8>, word: &[u8], flag: bool) -> Result<(), OutOfMemory>
    ensures { OnOk result (out.new.items ≡ out.old.items ++ field word.now (truth flag)) }
{
    put_field(out, word, truth(flag))
}

/// Appends a word and a number that isn't zero, or nothing.
#[tactic(auto, unfolding(crate::specs::Packet::reserved))]
pub(crate) fn put_reserved(out: &mut Vec<u8>, word: &[u8], n: u64) -> Result<(), OutOfMemory>
    ensures { OnOk result (out.new.items ≡ out.old.items ++ reserved word.now n) }
{
    if n != 0 {
        put_field(out, word, n)?;
    }
    Ok(())
}
