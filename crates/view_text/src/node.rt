//! A node and a cable in words.
ghost use Rattle.std.specs.Prelude.{◌≡◌, ◌<◌, ◌+◌, ◌++◌, codes, OnOk};
ghost use Rattle.topology_stack.specs.Text.{truth};
ghost use Rattle.view_text.specs.Node.{root_mark, irm_mark, title, link_words, gap_words, speed_word};
ghost use Rattle.view_text.specs.codings.Parts.{gap_front};

use crate::words::put_field;
use self_id::Attrs;
use topology_stack::{OutOfMemory, put_number};

/// Appends the mark of the root.
fn put_root_mark(out: &mut Vec<u8>, id: u8, root: u8) -> Result<(), OutOfMemory>
    ensures { OnOk result (out.new.items ≡ out.old.items ++ root_mark id root) }
{
    if id == root {
        out.extend_from_slice(b" root")?;
    }
    Ok(())
}

/// Appends the mark of the isochronous resource manager.
fn put_irm_mark(out: &mut Vec<u8>, id: u8, irm: Option<u8>) -> Result<(), OutOfMemory>
    ensures { OnOk result (out.new.items ≡ out.old.items ++ irm_mark id irm) }
{
    if let Some(irm) = irm {
        if id == irm {
            out.extend_from_slice(b" irm")?;
        }
    }
    Ok(())
}

/// Appends a node's ID and marks.
pub(crate) fn put_title(
    out: &mut Vec<u8>,
    id: u8,
    root: u8,
    irm: Option<u8>,
) -> Result<(), OutOfMemory>
    ensures { OnOk result (out.new.items ≡ out.old.items ++ title id root irm) }
{
    put_field(out, b"node ", u64::from(id))?;
    put_root_mark(out, id, root)?;
    put_irm_mark(out, id, irm)?;
    Ok(())
}

/// The digit of a flag.
fn digit(flag: bool) -> u8
    ensures { result ≡ 48 + truth flag }
{
    if flag { b'1' } else { b'0' }
}

/// A node's link, contender and power, whose numbers have one digit each.
#[tactic(auto, using(crate::proofs::OneDigit::link_words_are))]
fn link_text(attrs: Attrs) -> [u8; 26]
    requires { attrs.power < 10 }
    ensures { result ≡ link_words attrs }
{
    let mut text = *b"link 0 contender 0 power 0";
    text[5] = digit(attrs.link);
    text[17] = digit(attrs.contender);
    text[25] = b'0' + attrs.power;
    text
}

/// Appends a node's link, contender and power.
pub(crate) fn put_link_words(out: &mut Vec<u8>, attrs: Attrs) -> Result<(), OutOfMemory>
    requires { attrs.power < 10 }
    ensures { OnOk result (out.new.items ≡ out.old.items ++ link_words attrs) }
{
    out.extend_from_slice(&link_text(attrs))?;
    Ok(())
}

/// What stands before a node's gap count: whether it initiated the reset, and its speed code.
#[tactic(auto, using(crate::proofs::OneDigit::gap_front_is))]
fn gap_front(attrs: Attrs) -> [u8; 24]
    requires { attrs.speed < 10 }
    ensures { result ≡ gap_front attrs }
{
    let mut text = *b"initiated 0 speed 0 gap ";
    text[10] = digit(attrs.initiated);
    text[18] = b'0' + attrs.speed;
    text
}

/// Appends whether a node initiated the reset, its speed code and its gap count.
pub(crate) fn put_gap_words(out: &mut Vec<u8>, attrs: Attrs) -> Result<(), OutOfMemory>
    requires { attrs.speed < 10 }
    ensures { OnOk result (out.new.items ≡ out.old.items ++ gap_words attrs) }
{
    out.extend_from_slice(&gap_front(attrs))?;
    put_number(out, u64::from(attrs.gap))?;
    Ok(())
}

/// The word of a speed code.
pub(crate) fn speed_word(speed: u8) -> &'static [u8]
    ensures { result.now ≡ speed_word speed }
{
    match speed {
        0 => b"S100",
        1 => b"S200",
        _ => b"S400",
    }
}

/// What stands between the ports of a cable.
pub(crate) fn between_ports(speed: u8) -> &'static [u8]
    ensures { result.now ≡ codes "]--" ++ (speed_word speed ++ codes "--[") }
{
    match speed {
        0 => b"]--S100--[",
        1 => b"]--S200--[",
        _ => b"]--S400--[",
    }
}
