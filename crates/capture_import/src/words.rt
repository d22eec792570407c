//! The bytes that words of digits spell.
ghost use Rattle.std.specs.Prelude.{◌≡◌, ◌≤◌, ◌<◌, ◌++◌, ◌∷◌, [], nat_lt, length, filter, if◌then◌else◌, position, IfSome, IfNone, IfOk, OnOk};
ghost use Rattle.std.specs.Char.{digit_value};
ghost use Rattle.line_words.specs.Words.{is_some_text};
ghost use Rattle.line_words.specs.Digits.{are_digits};
ghost use Rattle.capture_import.specs.Words.{begins, is_between, words_of, without_prefix, is_suffix, has_suffix, without_suffix, digits_of, nibble, hex_bytes, is_decimal, is_hex, is_spelled, spelled, all_spelled, spelled_front};

use line_words::of_digits;
use topology_stack::OutOfMemory;

/// Whether bytes begin so.
pub(crate) fn begins(front: &[u8], bytes: &[u8]) -> bool
    ensures { result ≡ begins front.now bytes.now }
{
    bytes.starts_with(front)
}

/// Whether a character stands between words.
fn is_between(c: u8) -> bool
    ensures { result ≡ is_between c }
{
    c == b' '
        || c == b'\t'
        || c == b'\n'
        || c == b'\r'
        || c == b','
        || c == b':'
        || c == b';'
        || c == b'-'
        || c == b'"'
        || c == b'\''
        || c == b'('
        || c == b')'
        || c == b'['
        || c == b']'
        || c == b'{'
        || c == b'}'
}

/// The place of the first character between words.
fn first_between(text: &[u8]) -> Option<usize>
    ensures value { result ≡ position is_between text.now }
    ensures within { IfSome result (λ place. place < length text.now) }
{
    text.iter().position(|c| is_between(*c))
}

/// What stands before the first character between words, and what stands behind it.
#[tactic(auto, using(crate::proofs::Parts::words_cut, crate::proofs::Parts::words_whole))]
fn cut(text: &[u8]) -> Option<(&[u8], &[u8])>
    ensures cut { IfSome result (λ parts. words_of text.now
        ≡ filter is_some_text (parts.0.now ∷ []) ++ words_of parts.1.now) }
    ensures shorter { IfSome result (λ parts. length parts.1.now < length text.now) }
    ensures whole { IfNone result (words_of text.now ≡ filter is_some_text (text.now ∷ [])) }
{
    match first_between(text) {
        Some(end) => Some((&text[..end], &text[end + 1..])),
        None => None,
    }
}

/// A word without `0x` or `0X` before it.
fn without_prefix(word: &[u8]) -> &[u8]
    ensures { result.now ≡ without_prefix word.now }
{
    if word.len() >= 2 && (begins(b"0x", word) || begins(b"0X", word)) {
        &word[2..]
    } else {
        word
    }
}

fn is_suffix(c: u8) -> bool
    ensures { result ≡ is_suffix c }
{
    c == b'h' || c == b'H' || c == b'u' || c == b'U'
}

/// Whether a word ends with such a letter.
fn has_suffix(word: &[u8]) -> bool
    ensures { result ≡ has_suffix word.now }
{
    !word.is_empty() && is_suffix(word[word.len() - 1])
}

/// A word without it.
fn without_suffix(word: &[u8]) -> &[u8]
    ensures { result.now ≡ without_suffix word.now }
{
    if has_suffix(word) {
        &word[..word.len() - 1]
    } else {
        word
    }
}

/// The digits of a word.
fn digits_of(word: &[u8]) -> &[u8]
    ensures { result.now ≡ digits_of word.now }
{
    without_suffix(without_prefix(word))
}

/// Whether a character is a digit of a base.
fn is_digit(c: u8, base: u32) -> bool
    requires least { 2 ≤ base }
    requires most { base ≤ 16 }
    ensures { result ≡ nat_lt (digit_value c) base }
{
    char::from(c).to_digit(base).is_some()
}

/// What a hexadecimal digit counts; any other character counts nothing.
fn nibble(c: u8) -> u8
    ensures value { result ≡ nibble c }
    ensures few { result < 16 }
{
    match char::from(c).to_digit(16) {
        Some(digit) => digit as u8,
        None => 0,
    }
}

fn are_decimal(word: &[u8]) -> bool
    ensures { result ≡ are_digits 10 word.now }
{
    word.iter().all(|c| is_digit(*c, 10))
}

fn are_hexadecimal(word: &[u8]) -> bool
    ensures { result ≡ are_digits 16 word.now }
{
    word.iter().all(|c| is_digit(*c, 16))
}

/// Whether a word is ten decimal digits.
fn is_decimal(word: &[u8]) -> bool
    ensures { result ≡ is_decimal word.now }
{
    word.len() == 10 && are_decimal(word)
}

/// Whether digits are those of whole bytes.
fn is_hex(digits: &[u8]) -> bool
    ensures { result ≡ is_hex digits.now }
{
    !digits.is_empty() && digits.len() % 2 == 0 && are_hexadecimal(digits)
}

/// Appends the bytes of hexadecimal digits.
fn put_hex(out: &mut Vec<u8>, digits: &[u8]) -> Result<(), OutOfMemory>
    ensures { OnOk result (out.new.items ≡ out.old.items ++ hex_bytes digits.now) }
{
    let mut rest = digits;
    while let [high, low, behind @ ..] = rest {
        out.push(16 * nibble(*high) + nibble(*low))?;
        rest = behind;
    }
    Ok(())
}

/// Appends the bytes that a word spells, and answers whether it spells some.
fn put_word(out: &mut Vec<u8>, word: &[u8]) -> Result<bool, OutOfMemory>
    ensures fine { IfOk result (λ fine. fine ≡ is_spelled word.now) }
    ensures bytes { IfOk result (λ fine.
        out.new.items ≡ out.old.items ++ (if fine then spelled word.now else [])) }
{
    if is_decimal(word) {
        return match of_digits(word, 10, 10) {
            Some(quad) => {
                out.extend_from_slice(&quad.to_be_bytes())?;
                Ok(true)
            }
            None => Ok(false),
        };
    }
    let digits = digits_of(word);
    let fine = is_hex(digits);
    if fine {
        put_hex(out, digits)?;
    }
    Ok(fine)
}

/// The same of a part of a text, which may be empty.
#[tactic(auto, using(crate::proofs::Front::no_part))]
fn put_part(out: &mut Vec<u8>, part: &[u8]) -> Result<bool, OutOfMemory>
    ensures fine { IfOk result (λ fine.
        fine ≡ all_spelled (filter is_some_text (part.now ∷ []))) }
    ensures bytes { OnOk result (out.new.items
        ≡ out.old.items ++ spelled_front (filter is_some_text (part.now ∷ []))) }
{
    if part.is_empty() {
        return Ok(true);
    }
    put_word(out, part)
}

#[tactic(auto, using(crate::proofs::Front::went_on, crate::proofs::Front::went_on_all, crate::proofs::Front::stopped, crate::proofs::Front::stopped_all))]
/// Appends the bytes that the words of a text spell, up to the first that spells none. It answers whether each does.
pub(crate) fn put_words(out: &mut Vec<u8>, text: &[u8]) -> Result<bool, OutOfMemory>
    ensures fine { IfOk result (λ fine. fine ≡ all_spelled (words_of text.now)) }
    ensures bytes { OnOk result
        (out.new.items ≡ out.old.items ++ spelled_front (words_of text.now)) }
{
    let mut rest = text;
    while let Some((part, behind)) = cut(rest) {
        if !put_part(out, part)? {
            return Ok(false);
        }
        rest = behind;
    }
    put_part(out, rest)
}
