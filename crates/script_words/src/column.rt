//! Where the words of a line stand.
ghost use Rattle.std.specs.Prelude.{◌≡◌, ◌<◌, ◌≤◌, ◌+◌, ◌++◌, ◌^◌, ◌-◌, ◌==◌, ◌&&◌, not, if◌then◌else◌, length, slice_index, OnOk};
ghost use Rattle.script_lines.specs.Words.{is_blank};
ghost use Rattle.script_words.specs.Column.{columns, field, word_found, found};

use crate::text::{Text, word_at};
use topology_stack::{OutOfMemory, put_number};

fn is_blank(c: u8) -> bool
    ensures { result ≡ is_blank c }
{
    c == b' ' || c == b'\t'
}

/// Whether a word begins at this byte, where `blank` says that a blank or nothing stands before.
fn begins_word(blank: bool, c: u8) -> bool
    ensures { result ≡ (blank && not (is_blank c)) }
{
    blank && !is_blank(c)
}

/// Whether it is the word before which no further word is to be passed.
fn is_there(begins: bool, left: usize) -> bool
    ensures { result ≡ (begins && (left == 0)) }
{
    begins && left == 0
}

/// How many words are left to be passed.
fn left_behind(begins: bool, left: usize) -> usize
    ensures { result ≡ (if begins then left - 1 else left) }
{
    if begins { left.saturating_sub(1) } else { left }
}

/// The column of the word at this place of a line, and 0 where it has none.
#[tactic(auto, using(crate::proofs::Columns::column_here, crate::proofs::Columns::column_behind))]
fn column(line: &[u8], place: usize) -> usize
    ensures { result ≡ slice_index (columns line.now) place }
{
    let mut left = place;
    let mut blank = true;
    for (i, c) in line.iter().enumerate() {
        let begins = begins_word(blank, *c);
        if is_there(begins, left) {
            return i + 1;
        }
        left = left_behind(begins, left);
        blank = is_blank(*c);
    }
    0
}

/// Appends a word and a number, in decimal digits without leading zeros.
#[tactic(auto, unfolding(crate::specs::Column::field))]
pub(crate) fn put_field(out: &mut Vec<u8>, word: &[u8], n: u64) -> Result<(), OutOfMemory>
    ensures { OnOk result (out.new.items ≡ out.old.items ++ field word.now n) }
{
    out.extend_from_slice(word)?;
    put_number(out, n)
}

/// Appends a word of a line with its place.
fn put_word_found(
    out: &mut Vec<u8>,
    line: &[u8],
    word: &[u8],
    place: usize,
) -> Result<(), OutOfMemory>
    requires { place + 1 < 2 ^ 64 }
    ensures { OnOk result (out.new.items ≡ out.old.items ++ word_found line.now word.now place) }
{
    out.extend_from_slice(b"Found ")?;
    out.extend_from_slice(word)?;
    put_field(out, b", word ", place as u64 + 1)?;
    put_field(out, b" in column ", column(line, place) as u64)?;
    out.extend_from_slice(b", wanted ")?;
    Ok(())
}

/// Appends what stands at a place of a line where something else was wanted.
pub(crate) fn put_found(
    out: &mut Vec<u8>,
    line: &[u8],
    words: &[Text],
    place: usize,
) -> Result<(), OutOfMemory>
    ensures { OnOk result (out.new.items ≡ out.old.items ++ found line.now words.now place) }
{
    if place < words.len() {
        put_word_found(out, line, word_at(words, place), place)
    } else {
        out.extend_from_slice(b"Found the end of the line, wanted ")
    }
}
