//! The words of a line.
ghost use Rattle.std.specs.Prelude.{◌≡◌, ◌++◌, ◌∷◌, [], ◌<◌, length, IfOk, IfSome, IfNone, OnOk, MatchOption, Some, None, filter, position};
ghost use Rattle.line_words.specs.Words.{is_some_text};
ghost use Rattle.log_line.specs.Words.{is_blank, words_of, value_of};

use crate::word::Word;
use std::alloc::{AllocError, Global};

/// Whether a character parts words.
pub(crate) fn is_blank(c: u8) -> bool
    ensures { result ≡ is_blank c }
{
    c == b' ' || c == b'\t' || c == b'\r'
}

/// The place of the first blank of a line.
fn first_blank(line: &[u8]) -> Option<usize>
    ensures value { result ≡ position is_blank line.now }
    ensures within { IfSome result (λ place. place < length line.now) }
{
    line.iter().position(|c| is_blank(*c))
}

/// What stands before the first blank of a line, and what stands behind it.
#[tactic(auto, using(crate::proofs::Parts::words_cut, crate::proofs::Parts::words_whole))]
fn cut(line: &[u8]) -> Option<(&[u8], &[u8])>
    ensures cut { IfSome result (λ parts. words_of line.now
        ≡ filter is_some_text (parts.0.now ∷ []) ++ words_of parts.1.now) }
    ensures shorter { IfSome result (λ parts. length parts.1.now < length line.now) }
    ensures whole { IfNone result (words_of line.now ≡ filter is_some_text (line.now ∷ [])) }
{
    match first_blank(line) {
        Some(end) => Some((&line[..end], &line[end + 1..])),
        None => None,
    }
}

/// Appends a part of a line, unless it is empty.
fn push_part<'a>(words: &mut Vec<Word<'a>>, part: &'a [u8]) -> Result<(), AllocError>
    ensures { OnOk result (words.new.items
        ≡ words.old.items ++ filter is_some_text (part.now ∷ [])) }
{
    if !part.is_empty() {
        words.push(Word::new(part))?;
    }
    Ok(())
}

/// The words of a line.
pub(crate) fn words_of(alloc: Global, line: &[u8]) -> Result<Vec<Word<'_>>, AllocError>
    ensures { IfOk result (λ words. words.items ≡ words_of line.now) }
{
    let mut words = Vec::new(alloc);
    let mut rest = line;
    while let Some((part, behind)) = cut(rest) {
        push_part(&mut words, part)?;
        rest = behind;
    }
    push_part(&mut words, rest)?;
    Ok(words)
}

/// What stands behind a key in the first word that begins with it, and the words behind that one.
pub(crate) fn value_of<'w, 'a>(
    words: &'w [Word<'a>],
    key: &[u8],
) -> Option<(Word<'a>, &'w [Word<'a>])>
    ensures { MatchOption result (value_of key.now words.now ≡ None)
        (λ v. value_of key.now words.now ≡ Some (v.0, v.1.now)) }
{
    let mut rest = words;
    while let [word, behind @ ..] = rest {
        if let Some(value) = word.behind(key) {
            return Some((value, behind));
        }
        rest = behind;
    }
    None
}
