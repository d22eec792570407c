//! The lines of a file of names.
ghost use Rattle.std.specs.Prelude.{◌≡◌, ◌<◌, ◌≤◌, ◌∷◌, [], length, position, IfSome, IfNone};
ghost use Rattle.std.specs.List.{list_all};
ghost use Rattle.named_form.specs.File.{is_feed, is_blank, begins, ends_in_return, without_return, behind_blanks, word_len, said_in, is_remark, id_in, name_in, is_permitted, is_name, lines_of};

use line_words::of_digits;

/// The place of the first end of a line.
fn first_feed(text: &[u8]) -> Option<usize>
    ensures value { result ≡ position is_feed text.now }
    ensures within { IfSome result (λ place. place < length text.now) }
{
    text.iter().position(|c| *c == b'\n')
}

/// The first line of a text, and what stands behind its end. `None` if the text is its last line.
#[tactic(auto, using(crate::proofs::Cutting::lines_cut, crate::proofs::Cutting::lines_whole))]
pub(crate) fn cut(text: &[u8]) -> Option<(&[u8], &[u8])>
    ensures cut { IfSome result (λ parts. lines_of text.now ≡ parts.0.now ∷ lines_of parts.1.now) }
    ensures shorter { IfSome result (λ parts. length parts.1.now < length text.now) }
    ensures whole { IfNone result (lines_of text.now ≡ text.now ∷ []) }
{
    match first_feed(text) {
        Some(end) => Some((&text[..end], &text[end + 1..])),
        None => None,
    }
}

fn is_blank(c: u8) -> bool
    ensures { result ≡ is_blank c }
{
    c == b' ' || c == b'\t'
}

/// Whether bytes begin so.
pub(crate) fn begins(front: &[u8], bytes: &[u8]) -> bool
    ensures { result ≡ begins front.now bytes.now }
{
    bytes.starts_with(front)
}

fn ends_in_return(line: &[u8]) -> bool
    ensures { result ≡ ends_in_return line.now }
{
    !line.is_empty() && line[line.len() - 1] == b'\r'
}

/// A line without the carriage return at its end.
fn without_return(line: &[u8]) -> &[u8]
    ensures { result.now ≡ without_return line.now }
{
    if ends_in_return(line) {
        &line[..line.len() - 1]
    } else {
        line
    }
}

/// A line behind the blanks that come first.
fn behind_blanks(line: &[u8]) -> &[u8]
    ensures { result.now ≡ behind_blanks line.now }
{
    let mut rest = line;
    while let [c, behind @ ..] = rest {
        if !is_blank(*c) {
            return rest;
        }
        rest = behind;
    }
    rest
}

/// How many characters of a line come before its first blank.
fn word_len(line: &[u8]) -> usize
    ensures value { result ≡ word_len line.now }
    ensures within { result ≤ length line.now }
{
    let mut count = 0;
    let mut rest = line;
    while let [c, behind @ ..] = rest {
        if is_blank(*c) {
            return count;
        }
        count += 1;
        rest = behind;
    }
    count
}

/// What a line says: it, without blanks before and a carriage return behind.
pub(crate) fn said_in(line: &[u8]) -> &[u8]
    ensures { result.now ≡ said_in line.now }
{
    behind_blanks(without_return(line))
}

/// Whether a line says nothing, or a remark.
pub(crate) fn is_remark(said: &[u8]) -> bool
    ensures { result ≡ is_remark said.now }
{
    said.is_empty() || begins(b"#", said)
}

/// The number in one or two digits that is the first word of a line.
pub(crate) fn id_in(said: &[u8]) -> Option<u32>
    ensures { result ≡ id_in said.now }
{
    of_digits(&said[..word_len(said)], 10, 2)
}

/// What a line says behind its first word and the blanks after it.
pub(crate) fn name_in(said: &[u8]) -> &[u8]
    ensures { result.now ≡ name_in said.now }
{
    behind_blanks(&said[word_len(said)..])
}

fn is_permitted(c: u8) -> bool
    ensures { result ≡ is_permitted c }
{
    (32..=126).contains(&c) && c != b'"' && c != b'\\'
}

/// Whether each character is permitted.
fn are_permitted(name: &[u8]) -> bool
    ensures { result ≡ list_all is_permitted name.now }
{
    name.iter().all(|c| is_permitted(*c))
}

/// Whether a text is a name: 1 to 64 characters that can be printed and may be in a label.
pub(crate) fn is_name(name: &[u8]) -> bool
    ensures { result ≡ is_name name.now }
{
    !name.is_empty() && name.len() <= 64 && are_permitted(name)
}
