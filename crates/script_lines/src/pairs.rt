//! The pairs of a `node` line.
ghost use Rattle.std.specs.Prelude.{◌≡◌, ◌≤◌, ◌==◌, [], IfSome, None, unwrap_or, is_some};
ghost use Rattle.std.specs.Option.{option_copied};
ghost use Rattle.std.specs.Result.{result_err};
ghost use Rattle.script_lines.specs.Key.{limits};
ghost use Rattle.script_lines.specs.Node.{are_pairs, given, is_taken, wrong_pair, first_wrong_pair, number_given};
ghost use Rattle.script_lines.specs.Key.{key_of};
ghost use Rattle.script_lines.specs.Range.{IsBetween};

use crate::key::{Key, is_pair};
use crate::kind::Kind;
use crate::number::number_of;
use crate::word::Word;
use port_state::TimeRanges;

/// Whether words are pairs of a key and a word that may stand behind it.
pub(crate) fn are_pairs(words: &[Word]) -> bool
    ensures { result ≡ are_pairs words.now }
{
    let mut rest = words;
    while let [key, value, behind @ ..] = rest {
        if !is_pair(key, value) {
            return false;
        }
        rest = behind;
    }
    rest.is_empty()
}

/// The word behind a key, where the key stands in pairs.
pub(crate) fn given<'p, 'a>(pairs: &'p [Word<'a>], key: Key) -> Option<&'p Word<'a>>
    ensures { option_copied result ≡ given key pairs.now }
{
    let mut rest = pairs;
    while let [word, value, behind @ ..] = rest {
        if key.is(word) {
            return Some(value);
        }
        rest = behind;
    }
    None
}

/// Whether a key stands in pairs.
fn has(pairs: &[Word], key: Key) -> bool
    ensures { result ≡ is_some (given key pairs.now) }
{
    given(pairs, key).is_some()
}

/// Whether a key, or the one that may not stand beside it, stands in pairs.
fn is_taken(pairs: &[Word], key: Key) -> bool
    ensures { result ≡ is_taken key pairs.now }
{
    has(pairs, key) || has(pairs, key.rival())
}

/// What is wrong with a key behind other pairs, or else with the word behind it.
fn check_pair(before: &[Word], key: &Word, value: &Word, times: TimeRanges) -> Result<(), Kind>
    ensures { result_err result ≡ wrong_pair times before.now (key_of key.now) value.now }
{
    match Key::of_word(key) {
        None => Ok(()),
        Some(key) if is_taken(before, key) => Err(Kind::Twice),
        Some(key) => key.check(value, times),
    }
}

/// What is wrong with the first word at fault of pairs.
pub(crate) fn check_pairs(pairs: &[Word], times: TimeRanges) -> Result<(), Kind>
    ensures { result_err result ≡ first_wrong_pair times [] pairs.now }
{
    let mut done = 0;
    while let [key, value, ..] = &pairs[done..] {
        check_pair(&pairs[..done], key, value, times)?;
        done += 2;
    }
    Ok(())
}

/// The number behind a key, where the pairs are right.
pub(crate) fn number(pairs: &[Word], key: Key, times: TimeRanges) -> Option<u32>
    requires right { first_wrong_pair times [] pairs.now ≡ None }
    ensures value { result ≡ number_given key pairs.now }
    ensures ranged { IfSome result (IsBetween (limits times key).0 (limits times key).1) }
{
    number_of(given(pairs, key)?.as_bytes())
}

/// The number behind a key, or where there is none this one, which could stand there. The key's
/// numbers are small.
pub(crate) fn small(pairs: &[Word], key: Key, times: TimeRanges, default: u8) -> u8
    requires right { first_wrong_pair times [] pairs.now ≡ None }
    requires small { (limits times key).1 ≤ 255 }
    requires usual { default ≤ (limits times key).1 }
    ensures value { result ≡ unwrap_or (number_given key pairs.now) default }
    ensures most { result ≤ (limits times key).1 }
{
    match number(pairs, key, times) {
        Some(n) => n as u8,
        None => default,
    }
}

/// The time behind a key.
pub(crate) fn time(pairs: &[Word], key: Key, times: TimeRanges) -> Option<u16>
    requires right { first_wrong_pair times [] pairs.now ≡ None }
    requires small { (limits times key).1 ≤ 65535 }
    ensures value { result ≡ number_given key pairs.now }
    ensures ranged { IfSome result (IsBetween (limits times key).0 (limits times key).1) }
{
    match number(pairs, key, times) {
        Some(n) => Some(n as u16),
        None => None,
    }
}
