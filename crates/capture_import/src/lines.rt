//! The data of the lines of a text.
ghost use Rattle.std.specs.Prelude.{◌≡◌, ◌<◌, ◌++◌, ◌∷◌, [], length, position, IfSome, IfNone, OnOk};
ghost use Rattle.std.specs.List.{slice_split};
ghost use Rattle.capture_import.specs.Text.{ends_data, data_of, is_blank, from_blank, behind_blanks, behind_offset, line_data, is_feed, data_of_text};

use crate::taken::TextForm;
use crate::words::begins;
use topology_stack::OutOfMemory;

/// Whether the data of a line end before this rest of it.
fn ends_data(form: TextForm, rest: &[u8]) -> bool
    ensures { result ≡ ends_data form rest.now }
{
    match form {
        TextForm::Words => begins(b"#", rest) || begins(b"//", rest),
        TextForm::Xxd => begins(b"  ", rest),
        TextForm::Hexdump => begins(b"|", rest),
        TextForm::Offsets => begins(b"  ", rest),
        TextForm::Octal => false,
    }
}

/// Appends the data that a line begins with.
fn put_data(out: &mut Vec<u8>, form: TextForm, line: &[u8]) -> Result<(), OutOfMemory>
    ensures { OnOk result (out.new.items ≡ out.old.items ++ data_of form line.now) }
{
    let mut rest = line;
    while let [c, behind @ ..] = rest {
        if ends_data(form, rest) {
            return Ok(());
        }
        out.push(*c)?;
        rest = behind;
    }
    Ok(())
}

fn is_blank(c: u8) -> bool
    ensures { result ≡ is_blank c }
{
    c == b' ' || c == b'\t'
}

/// A line from its first blank on.
fn from_blank(line: &[u8]) -> &[u8]
    ensures { result.now ≡ from_blank line.now }
{
    let mut rest = line;
    while let [c, behind @ ..] = rest {
        if is_blank(*c) {
            return rest;
        }
        rest = behind;
    }
    rest
}

/// A line behind the blanks that stand first.
fn behind_blanks(line: &[u8]) -> &[u8]
    ensures { result.now ≡ behind_blanks line.now }
{
    let mut rest = line;
    while let [c, behind @ ..] = rest {
        if !is_blank(*c) {
            return rest;
        }
        rest = behind;
    }
    rest
}

/// The line of a dump behind its offset.
fn behind_offset(form: TextForm, line: &[u8]) -> &[u8]
    ensures { result.now ≡ behind_offset form line.now }
{
    match form {
        TextForm::Words => line,
        TextForm::Xxd => behind_blanks(from_blank(line)),
        TextForm::Hexdump => behind_blanks(from_blank(line)),
        TextForm::Octal => behind_blanks(from_blank(line)),
        TextForm::Offsets => behind_blanks(from_blank(line)),
    }
}

/// Appends the data of a line, and the end of the line.
fn put_line(out: &mut Vec<u8>, form: TextForm, line: &[u8]) -> Result<(), OutOfMemory>
    ensures { OnOk result (out.new.items ≡ out.old.items ++ line_data form line.now) }
{
    put_data(out, form, behind_offset(form, line))?;
    out.push(b'\n')?;
    Ok(())
}

/// The place of the first end of a line.
fn first_feed(text: &[u8]) -> Option<usize>
    ensures value { result ≡ position is_feed text.now }
    ensures within { IfSome result (λ place. place < length text.now) }
{
    text.iter().position(|c| *c == b'\n')
}

/// The first line of a text, and what stands behind its end.
#[tactic(auto, using(crate::proofs::Parts::lines_cut, crate::proofs::Parts::lines_whole))]
fn cut(text: &[u8]) -> Option<(&[u8], &[u8])>
    ensures cut { IfSome result (λ parts. slice_split is_feed text.now
        ≡ parts.0.now ∷ slice_split is_feed parts.1.now) }
    ensures shorter { IfSome result (λ parts. length parts.1.now < length text.now) }
    ensures whole { IfNone result (slice_split is_feed text.now ≡ text.now ∷ []) }
{
    match first_feed(text) {
        Some(end) => Some((&text[..end], &text[end + 1..])),
        None => None,
    }
}

/// Appends the data of a text's lines.
pub(crate) fn put_lines(out: &mut Vec<u8>, form: TextForm, text: &[u8]) -> Result<(), OutOfMemory>
    ensures { OnOk result (out.new.items ≡ out.old.items ++ data_of_text form text.now) }
{
    let mut rest = text;
    while let Some((line, behind)) = cut(rest) {
        put_line(out, form, line)?;
        rest = behind;
    }
    put_line(out, form, rest)
}
