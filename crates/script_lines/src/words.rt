//! The words of a line.
ghost use Rattle.std.specs.Prelude.{◌≡◌, ◌++◌, ◌∷◌, [], ◌<◌, length, IfOk, IfSome, IfNone, OnOk, IsTrue, filter, position, not};
ghost use Rattle.line_words.specs.Words.{is_some_text};
ghost use Rattle.script_lines.specs.Words.{is_blank, is_permitted, words_of};
ghost use Rattle.script_lines.specs.codings.Shown.{is_shown};
ghost use Rattle.std.specs.List.{list_all};

use crate::word::Word;
use arrayvec::ArrayVec;
use std::alloc::Global;
use topology_stack::OutOfMemory;

/// Whether a character parts words.
pub(crate) fn is_blank(c: u8) -> bool
    ensures { result ≡ is_blank c }
{
    c == b' ' || c == b'\t'
}

/// The place of the first blank of a line.
fn first_blank(line: &[u8]) -> Option<usize>
    ensures value { result ≡ position is_blank line.now }
    ensures within { IfSome result (λ place. place < length line.now) }
{
    line.iter().position(|c| is_blank(*c))
}

/// What stands before the first blank of a line, and what stands behind it.
#[tactic(auto, using(crate::proofs::Parts::words_cut, crate::proofs::Parts::words_whole))]
fn cut(line: &[u8]) -> Option<(&[u8], &[u8])>
    ensures cut { IfSome result (λ parts. words_of line.now
        ≡ filter is_some_text (parts.0.now ∷ []) ++ words_of parts.1.now) }
    ensures shorter { IfSome result (λ parts. length parts.1.now < length line.now) }
    ensures whole { IfNone result (words_of line.now ≡ filter is_some_text (line.now ∷ [])) }
{
    match first_blank(line) {
        Some(end) => Some((&line[..end], &line[end + 1..])),
        None => None,
    }
}

/// Appends a part of a line, unless it is empty.
fn push_part<'a>(words: &mut Vec<Word<'a>>, part: &'a [u8]) -> Result<(), OutOfMemory>
    ensures { OnOk result (words.new.items
        ≡ words.old.items ++ filter is_some_text (part.now ∷ [])) }
{
    if !part.is_empty() {
        words.push(Word::new(part))?;
    }
    Ok(())
}

/// The words of a line.
pub(crate) fn words_of(alloc: Global, line: &[u8]) -> Result<Vec<Word<'_>>, OutOfMemory>
    ensures { IfOk result (λ words. words.items ≡ words_of line.now) }
{
    let mut words = Vec::new(alloc);
    let mut rest = line;
    while let Some((part, behind)) = cut(rest) {
        push_part(&mut words, part)?;
        rest = behind;
    }
    push_part(&mut words, rest)?;
    Ok(words)
}

/// Whether a character stands in words: it is permitted and no blank.
fn is_shown(c: u8) -> bool
    ensures { result ≡ is_shown c }
{
    (33..=126).contains(&c)
}

/// The place of the first character of a line that stands in no word.
fn first_unshown(line: &[u8]) -> Option<usize>
    ensures value { result ≡ position (λ c. not (is_shown c)) line.now }
    ensures within { IfSome result (λ place. place < length line.now) }
{
    line.iter().position(|c| !is_shown(*c))
}

/// What stands before the first blank of a line, and what stands behind it, or `Some(None)` where it
/// has no blank. `None` where a character before that isn't permitted.
fn cut_shown(line: &[u8]) -> Option<Option<(&[u8], &[u8])>>
    ensures cut { IfSome result (λ cut. IfSome cut (λ parts. words_of line.now
        ≡ filter is_some_text (parts.0.now ∷ []) ++ words_of parts.1.now)) }
    ensures shorter { IfSome result (λ cut. IfSome cut (λ parts. length parts.1.now < length line.now)) }
    ensures permitted { IfSome result (λ cut. IfSome cut (λ parts.
        list_all is_permitted line.now ≡ list_all is_permitted parts.1.now)) }
    ensures whole { IfSome result (λ cut. IfNone cut
        (words_of line.now ≡ filter is_some_text (line.now ∷ []))) }
    ensures all { IfSome result (λ cut. IfNone cut (IsTrue (list_all is_permitted line.now))) }
{
    match first_unshown(line) {
        None => Some(None),
        Some(end) if is_blank(line[end]) => Some(Some((&line[..end], &line[end + 1..]))),
        Some(_) => None,
    }
}

/// Appends a part of a line, unless it is empty. `None` where there is no room for it.
fn take_part<'a>(words: &mut ArrayVec<Word<'a>, 8>, part: &'a [u8]) -> Option<()>
    ensures { IfSome result (λ _. words.new.items
        ≡ words.old.items ++ filter is_some_text (part.now ∷ [])) }
{
    if part.is_empty() {
        return Some(());
    }
    words.try_push(Word::new(part)).ok()
}

/// Appends the words of a line, each character of which is permitted. `None` where one isn't, or where
/// there is no room for the words. It takes no memory.
pub(crate) fn few_words<'a>(words: &mut ArrayVec<Word<'a>, 8>, line: &'a [u8]) -> Option<()>
    ensures words { IfSome result (λ _. words.new.items ≡ words.old.items ++ words_of line.now) }
    ensures permitted { IfSome result (λ _. IsTrue (list_all is_permitted line.now)) }
{
    let mut rest = line;
    while let Some((part, behind)) = cut_shown(rest)? {
        take_part(words, part)?;
        rest = behind;
    }
    take_part(words, rest)
}

/// Whether each byte of a line is permitted.
pub(crate) fn are_permitted(line: &[u8]) -> bool
    ensures { result ≡ list_all is_permitted line.now }
{
    line.iter().all(|c| *c == b'\t' || (32..=126).contains(c))
}
