//! The lists of a log.
ghost use Rattle.std.specs.Prelude.{◌≡◌, ◌∷◌, [], ◌<◌, length, IfOk, IfSome, IfNone, Some, None, position, if◌then◌else◌};
ghost use Rattle.log_line.specs.Lists.{is_comma, before, bare, numbers_of, unclosed, between_commas, between_blanks, within, spaced, behind_all, list_of};
ghost use Rattle.log_line.specs.Words.{to_field};
ghost use Rattle.std.specs.Option.{option_copied};
ghost use Rattle.log_line.specs.Number.{number_of};

use crate::number::number_of;
use crate::word::Word;
use quad_lanes::QuadList;
use std::alloc::{AllocError, Global};

/// The place of the first comma of a text.
pub(crate) fn first_comma(text: &[u8]) -> Option<usize>
    ensures value { result ≡ position is_comma text.now }
    ensures within { IfSome result (λ place. place < length text.now) }
{
    text.iter().position(|c| *c == b',')
}

/// A text without a blank that it begins with.
fn bare(text: &[u8]) -> &[u8]
    ensures { result.now ≡ bare text.now }
{
    match text.strip_prefix(b" ") {
        Some(rest) => rest,
        None => text,
    }
}

/// What stands before the first comma of a text, and what stands behind it.
fn cut(text: &[u8]) -> Option<(&[u8], &[u8])>
    ensures cut { IfSome result (λ parts. between_commas text.now
        ≡ before (number_of (bare parts.0.now)) (between_commas parts.1.now)) }
    ensures shorter { IfSome result (λ parts. length parts.1.now < length text.now) }
    ensures whole { IfNone result
        (between_commas text.now ≡ before (number_of (bare text.now)) (Some [])) }
{
    match first_comma(text) {
        Some(end) => Some((&text[..end], &text[end + 1..])),
        None => None,
    }
}

/// The numbers that stand between commas. `None` where one of the parts spells no number.
fn between_commas(alloc: Global, text: &[u8]) -> Result<Option<QuadList>, AllocError>
    ensures { IfOk result (λ list. list ≡ between_commas text.now) }
{
    let mut list = QuadList::new(alloc);
    let mut rest = text;
    while let Some((part, behind)) = cut(rest) {
        let Some(number) = number_of(bare(part)) else {
            return Ok(None);
        };
        list.push(number)?;
        rest = behind;
    }
    let Some(number) = number_of(bare(rest)) else {
        return Ok(None);
    };
    list.push(number)?;
    Ok(Some(list))
}

/// What stands before a last brace.
fn unclosed(text: &[u8]) -> Option<&[u8]>
    ensures { option_copied result ≡ unclosed text.now }
{
    text.strip_suffix(b"}")
}

/// A text and the words up to the next field, each behind a blank.
fn spaced(alloc: Global, start: &Word, words: &[Word]) -> Result<Vec<u8>, AllocError>
    ensures { IfOk result (λ text. text.items ≡ spaced start.now (to_field words.now)) }
{
    let mut text = Vec::from_slice(alloc, start.as_bytes())?;
    let mut rest = words;
    while let [word, behind @ ..] = rest {
        if word.is_of_field() {
            break;
        }
        text.push(b' ')?;
        text.extend_from_slice(word.as_bytes())?;
        rest = behind;
    }
    Ok(text)
}

/// The numbers of a text within braces. `None` where it isn't closed or has something else.
fn within(alloc: Global, text: &[u8]) -> Result<Option<QuadList>, AllocError>
    ensures { IfOk result (λ list. list ≡ within (unclosed text.now)) }
{
    let Some(text) = unclosed(text) else {
        return Ok(None);
    };
    if text.is_empty() {
        return Ok(Some(QuadList::new(alloc)));
    }
    between_commas(alloc, text)
}

/// Appends the numbers of the words up to the next field. It says whether each of them spells one.
fn push_numbers(list: &mut QuadList, words: &[Word]) -> Result<bool, AllocError>
    ensures { IfOk result (λ all. behind_all list.old (numbers_of (to_field words.now))
        ≡ if all then Some list.new else None) }
{
    let mut rest = words;
    while let [word, behind @ ..] = rest {
        if word.is_of_field() {
            break;
        }
        let Some(number) = number_of(word.as_bytes()) else {
            return Ok(false);
        };
        list.push(number)?;
        rest = behind;
    }
    Ok(true)
}

/// The numbers of a word, which may be empty, and of the words up to the next field.
fn between_blanks(
    alloc: Global,
    first: &Word,
    words: &[Word],
) -> Result<Option<QuadList>, AllocError>
    ensures { IfOk result (λ list. list ≡ between_blanks first.now (to_field words.now)) }
{
    let mut list = QuadList::new(alloc);
    if !first.as_bytes().is_empty() {
        let Some(number) = number_of(first.as_bytes()) else {
            return Ok(None);
        };
        list.push(number)?;
    }
    if push_numbers(&mut list, words)? {
        Ok(Some(list))
    } else {
        Ok(None)
    }
}

/// The numbers of a list that this word begins, and that goes on up to the next field. `None` where it
/// isn't one.
pub(crate) fn list_of(
    alloc: Global,
    first: &Word,
    words: &[Word],
) -> Result<Option<QuadList>, AllocError>
    ensures { IfOk result (λ list. list ≡ list_of first.now words.now) }
{
    match first.behind(b"{") {
        Some(start) => {
            let text = spaced(alloc, &start, words)?;
            within(alloc, text.as_slice())
        }
        None => between_blanks(alloc, first, words),
    }
}
