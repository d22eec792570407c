//! Which word of the pairs of a `node` line is at fault.
ghost use Rattle.std.specs.Prelude.{◌≡◌, ◌≤◌, ◌++◌, ◌||◌, [], OnOk, length};
ghost use Rattle.std.specs.List.{list_all};
ghost use Rattle.script_lines.specs.Coins.{is_coin, are_coins};
ghost use Rattle.script_words.specs.Pairs.{limits_of, is_key, is_pair, paired, keys_wanted, behind_key, pair_wanted, is_fault, valued, range_wanted, meaning_of, limits_wanted, value_wanted, rival_word, has_key, distinct};

use crate::column::put_field;
use crate::text::{Text, same};
use crate::usage::is_out;
use port_state::TimeRanges;
use topology_stack::OutOfMemory;

/// The least and the greatest number behind a key, where the times of nodes are in these ranges. Coins
/// and a kind are no numbers.
fn limits_of(times: TimeRanges, key: &[u8]) -> Option<(u32, u32)>
    ensures { result ≡ limits_of times key.now }
{
    let TimeRanges { least, most } = times;
    if same(key, b"speed") {
        Some((0, 2))
    } else if same(key, b"link") {
        Some((0, 1))
    } else if same(key, b"contender") {
        Some((0, 1))
    } else if same(key, b"force") {
        Some((0, 1))
    } else if same(key, b"power") {
        Some((0, 7))
    } else if same(key, b"gap") {
        Some((0, 63))
    } else if same(key, b"gapreset") {
        Some((0, 1))
    } else if same(key, b"hold") {
        Some((u32::from(least.hold), u32::from(most.hold)))
    } else if same(key, b"short") {
        Some((u32::from(least.short), u32::from(most.short)))
    } else if same(key, b"long") {
        Some((u32::from(least.long), u32::from(most.long)))
    } else if same(key, b"coins") {
        Some((0, u32::MAX))
    } else if same(key, b"seed") {
        Some((0, u32::MAX))
    } else if same(key, b"kind") {
        Some((0, u32::MAX))
    } else {
        None
    }
}

fn is_key(word: &[u8]) -> bool
    ensures { result ≡ is_key word.now }
{
    limits_of(TimeRanges::profile(1), word).is_some()
}

fn is_pair(key: &[u8], value: &[u8]) -> bool
    ensures { result ≡ is_pair key.now value.now }
{
    if same(key, b"kind") {
        same(value, b"field") || same(value, b"packed")
    } else {
        is_key(key)
    }
}

const KEYS: &[u8] =
    b"speed, link, contender, force, power, gap, gapreset, hold, short, long, coins, seed or kind.\n";

/// What may stand behind a word that should be a key.
fn behind_key(key: &[u8]) -> &'static [u8]
    ensures { result.now ≡ behind_key key.now }
{
    if same(key, b"kind") {
        b"field or packed.\n"
    } else if is_key(key) {
        b"a value behind the key.\n"
    } else {
        KEYS
    }
}

/// How many words at the front are pairs, or a key with nothing right behind it, and what may stand
/// behind those.
pub(crate) fn paired(words: &[Text]) -> (usize, &'static [u8])
    ensures value { result.0 ≡ paired words.now }
    ensures few { result.0 ≤ length words.now }
    ensures wanted { result.1.now ≡ pair_wanted words.now }
{
    let mut n = 0;
    let mut rest = words;
    while let [key, value, behind @ ..] = rest {
        if !is_pair(key.as_bytes(), value.as_bytes()) {
            break;
        }
        n += 2;
        rest = behind;
    }
    match rest {
        [] => (n, KEYS),
        [key, ..] => (
            n + usize::from(is_key(key.as_bytes())),
            behind_key(key.as_bytes()),
        ),
    }
}

fn all_coins(text: &[u8]) -> bool
    ensures { result ≡ list_all is_coin text.now }
{
    text.iter().all(|c| *c == b'0' || *c == b'1')
}

fn are_coins(text: &[u8]) -> bool
    ensures { result ≡ are_coins text.now }
{
    !text.is_empty() && text.len() <= 64 && all_coins(text)
}

/// Whether a word behind a key is at fault.
fn is_fault(times: TimeRanges, key: &[u8], value: &[u8]) -> bool
    ensures { result ≡ is_fault times key.now value.now }
{
    if same(key, b"kind") {
        return false;
    }
    if same(key, b"coins") {
        return !are_coins(value);
    }
    match limits_of(times, key) {
        None => false,
        Some((least, most)) => is_out(value, least, most),
    }
}

/// How many words stand before the first value at fault.
pub(crate) fn valued(times: TimeRanges, words: &[Text]) -> usize
    ensures value { result ≡ valued times words.now }
    ensures few { result ≤ length words.now }
{
    let mut n = 0;
    let mut rest = words;
    while let [key, value, behind @ ..] = rest {
        if is_fault(times, key.as_bytes(), value.as_bytes()) {
            return n + 1;
        }
        n += 2;
        rest = behind;
    }
    n
}

/// Appends the range of numbers.
pub(crate) fn put_range(out: &mut Vec<u8>, least: u32, most: u32) -> Result<(), OutOfMemory>
    ensures { OnOk result (out.new.items ≡ out.old.items ++ range_wanted (least, most)) }
{
    put_field(out, b"a number from ", u64::from(least))?;
    put_field(out, b" to ", u64::from(most))?;
    out.extend_from_slice(b".\n")?;
    Ok(())
}

/// What the number behind a key is.
#[tactic(auto, unfolding(crate::specs::Pairs::meaning_of))]
fn meaning_of(key: &[u8]) -> &'static [u8]
    ensures { result.now ≡ meaning_of key.now }
{
    if same(key, b"speed") {
        b" (S100, S200, S400).\n"
    } else if same(key, b"link") {
        b" (1: its link is active).\n"
    } else if same(key, b"contender") {
        b" (1: it may become isochronous resource manager).\n"
    } else if same(key, b"force") {
        b" (1: it waits to become root).\n"
    } else if same(key, b"power") {
        b" (its power class).\n"
    } else if same(key, b"gap") {
        b" (its gap count).\n"
    } else if same(key, b"gapreset") {
        b" (1: it sets its gap count back to 63 at the second reset).\n"
    } else if same(key, b"hold") {
        b" (turns that it holds a bus reset).\n"
    } else if same(key, b"short") {
        b" (turns of a short wait in a contention).\n"
    } else if same(key, b"long") {
        b" (turns of a long wait in a contention).\n"
    } else {
        b" (its coins are drawn from it).\n"
    }
}

/// Appends the range of a key's numbers and what they are, or the keys where there is none.
fn put_limits(out: &mut Vec<u8>, key: &[u8], limits: Option<(u32, u32)>) -> Result<(), OutOfMemory>
    ensures { OnOk result (out.new.items ≡ out.old.items ++ limits_wanted key.now limits) }
{
    match limits {
        None => out.extend_from_slice(KEYS),
        Some((least, most)) => {
            out.extend_from_slice(key)?;
            put_field(out, b": a number from ", u64::from(least))?;
            put_field(out, b" to ", u64::from(most))?;
            out.extend_from_slice(meaning_of(key))?;
            Ok(())
        }
    }
}

/// Appends what may stand behind a key.
#[tactic(auto, unfolding(crate::specs::Pairs::value_wanted))]
pub(crate) fn put_value_wanted(
    out: &mut Vec<u8>,
    times: TimeRanges,
    key: &[u8],
) -> Result<(), OutOfMemory>
    ensures { OnOk result (out.new.items ≡ out.old.items ++ value_wanted times key.now) }
{
    if same(key, b"coins") {
        return out.extend_from_slice(b"1 to 64 coins, each 0 or 1.\n");
    }
    put_limits(out, key, limits_of(times, key))
}

/// The key that may not stand beside this one.
#[tactic(auto, unfolding(crate::specs::Pairs::rival_word))]
fn rival(key: &[u8]) -> &[u8]
    ensures { result.now ≡ rival_word key.now }
{
    if same(key, b"coins") {
        b"seed"
    } else if same(key, b"seed") {
        b"coins"
    } else {
        key
    }
}

/// Whether a key stands in pairs.
fn has_key(key: &[u8], pairs: &[Text]) -> bool
    ensures { result ≡ has_key key.now pairs.now }
{
    let mut rest = pairs;
    while let [word, _, behind @ ..] = rest {
        if word.is(key) {
            return true;
        }
        rest = behind;
    }
    false
}

/// Whether a key, or the one that may not stand beside it, stands in pairs.
fn is_taken(key: &[u8], before: &[Text]) -> bool
    ensures { result ≡ (has_key key.now before.now || has_key (rival_word key.now) before.now) }
{
    has_key(key, before) || has_key(rival(key), before)
}

/// How many words stand before the first key that stands, or whose rival stands, in what is before it.
pub(crate) fn distinct(words: &[Text]) -> usize
    ensures value { result ≡ distinct [] words.now }
    ensures few { result ≤ length words.now }
{
    let mut n = 0;
    while n + 1 < words.len() {
        if is_taken(words[n].as_bytes(), &words[..n]) {
            return n;
        }
        n += 2;
    }
    n
}
