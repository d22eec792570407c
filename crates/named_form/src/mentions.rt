//! A text with the names of the nodes that it mentions.
ghost use Rattle.std.specs.Prelude.{◌≡◌, ◌≤◌, ◌++◌, length, IfOk, OnOk};
ghost use Rattle.named_form.specs.File.{lines_of};
ghost use Rattle.named_form.specs.Mentions.{digits_len, mentioned, before_mention, with_names};

use crate::file::name_of;
use crate::lines::begins;
use line_words::of_digits;
use std::alloc::Global;
use topology_stack::OutOfMemory;

/// How many digits a text begins with.
fn digits_len(text: &[u8]) -> usize
    ensures value { result ≡ digits_len text.now }
    ensures within { result ≤ length text.now }
{
    let mut count = 0;
    let mut rest = text;
    while let [c, behind @ ..] = rest {
        if !c.is_ascii_digit() {
            return count;
        }
        count += 1;
        rest = behind;
    }
    count
}

/// The node that a text begins with a mention of: `node` and a number.
fn mentioned(text: &[u8]) -> Option<u32>
    ensures { result ≡ mentioned text.now }
{
    if !begins(b"node ", text) {
        return None;
    }
    let number = &text[5..];
    of_digits(&number[..digits_len(number)], 10, 2)
}

/// Appends what comes before the rest of a text: if that begins with a mention of a node, the node's name.
fn put_before(out: &mut Vec<u8>, file: &[u8], text: &[u8]) -> Result<(), OutOfMemory>
    ensures { OnOk result (out.new.items
        ≡ out.old.items ++ before_mention (lines_of file.now) text.now) }
{
    let Some(id) = mentioned(text) else {
        return Ok(());
    };
    let Some(name) = name_of(id, file) else {
        return Ok(());
    };
    out.extend_from_slice(name)?;
    out.extend_from_slice(b": ")?;
    Ok(())
}

/// A text with the names of a file, one before each mention of a node that has one.
pub(crate) fn with_names(alloc: Global, file: &[u8], text: &[u8]) -> Result<Vec<u8>, OutOfMemory>
    ensures { IfOk result (λ named. named.items ≡ with_names (lines_of file.now) text.now) }
{
    let mut out = Vec::new(alloc);
    let mut rest = text;
    while let [c, behind @ ..] = rest {
        put_before(&mut out, file, rest)?;
        out.push(*c)?;
        rest = behind;
    }
    Ok(out)
}
