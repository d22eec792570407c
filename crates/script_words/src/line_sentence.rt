//! What was found and what was wanted in a line that is at fault by itself.
ghost use Rattle.std.specs.Prelude.{◌≡◌, ◌≤◌, ◌<◌, ◌++◌, ◌+◌, ◌^◌, [], not, drop, length, position, OnOk, IfOk, IfSome, Some};
ghost use Rattle.script_lines.specs.Words.{words_of, is_permitted};
ghost use Rattle.script_words.specs.Usage.{usages, range_of};
ghost use Rattle.script_words.specs.Fit.{furthest};
ghost use Rattle.script_words.specs.Near.{nearest};
ghost use Rattle.script_words.specs.Pairs.{distinct};
ghost use Rattle.script_words.specs.LineSentence.{byte_sentence, is_marked, verbs_wanted, near_wanted, at_byte, usages_wanted, pairs_sentence, usage_sentence, form_sentence, word_sentence, shape_wanted, pair_value, value_sentence, usage_words, twice_sentence};

use crate::before::is_node_line;
use crate::clocks::is_clock_line;
use crate::column::{put_field, put_found};
use crate::fit::{first_of, furthest, put_all_of, right};
use crate::near::nearest;
use crate::pairs::{distinct, paired, put_range, put_value_wanted, valued};
use crate::text::{Text, word_at, words_of};
use crate::usage::range_of;
use port_state::TimeRanges;
use std::alloc::Global;
use topology_stack::{OutOfMemory, put_hex};

/// The place of the first byte that isn't permitted.
fn first_bad(line: &[u8]) -> Option<usize>
    ensures value { result ≡ position (λ c. not (is_permitted c)) line.now }
    ensures within { IfSome result (λ place. place < length line.now) }
{
    line.iter()
        .position(|c| !(*c == b'\t' || (32..=126).contains(c)))
}

/// Appends the sentence on a byte that isn't permitted.
fn put_byte_sentence(out: &mut Vec<u8>, byte: u8, place: usize) -> Result<(), OutOfMemory>
    requires { place + 1 < 2 ^ 64 }
    ensures { OnOk result (out.new.items ≡ out.old.items ++ byte_sentence byte place) }
{
    out.extend_from_slice(b"Found the byte ")?;
    put_hex(out, 2, u32::from(byte))?;
    put_field(out, b" in column ", place as u64 + 1)?;
    out.extend_from_slice(
        b", wanted a tab or a character of ASCII from the space to the tilde.\n",
    )?;
    Ok(())
}

/// Whether a line begins with the mark by which some editors tell UTF-8.
fn is_marked(line: &[u8]) -> bool
    ensures { result ≡ is_marked line.now }
{
    match line {
        [a, b, c, ..] => *a == 0xEF && *b == 0xBB && *c == 0xBF,
        _ => false,
    }
}

/// Appends the verb that a word comes near to, if there is one.
fn put_near(alloc: Global, out: &mut Vec<u8>, word: &[u8]) -> Result<(), OutOfMemory>
    ensures { OnOk result (out.new.items
        ≡ out.old.items ++ near_wanted (nearest word.now)) }
{
    let verb = nearest(alloc, word)?;
    if verb.is_empty() {
        return out.extend_from_slice(b".\n");
    }
    out.extend_from_slice(b". The nearest is ")?;
    out.extend_from_slice(verb)?;
    out.extend_from_slice(b".\n")?;
    Ok(())
}

/// Appends the verbs, and which of them a word comes near to.
fn put_verbs(alloc: Global, out: &mut Vec<u8>, word: &[u8]) -> Result<(), OutOfMemory>
    ensures { OnOk result (out.new.items
        ≡ out.old.items ++ (verbs_wanted ++ near_wanted (nearest word.now))) }
{
    out.extend_from_slice(
        b"delay, times, node, clock, plug, pull, reset, turn, hold, settle, config, csr, look, allocate, release, manager, plan or maps",
    )?;
    put_near(alloc, out, word)
}

/// Appends the usages for which so many words may stand.
fn put_usages_wanted(
    alloc: Global,
    out: &mut Vec<u8>,
    n: usize,
    words: &[Text],
) -> Result<(), OutOfMemory>
    ensures { OnOk result (out.new.items ≡ out.old.items ++ usages_wanted n words.now) }
{
    if n == 0 {
        return put_verbs(alloc, out, word_at(words, 0));
    }
    put_all_of(alloc, out, n, words)?;
    out.extend_from_slice(b".\n")?;
    Ok(())
}

/// Appends the sentence on the pairs of a `node` line.
fn put_pairs_sentence(out: &mut Vec<u8>, line: &[u8], words: &[Text]) -> Result<(), OutOfMemory>
    requires some { 3 ≤ length words.now }
    ensures { OnOk result (out.new.items ≡ out.old.items ++ pairs_sentence line.now words.now) }
{
    let (n, wanted) = paired(&words[3..]);
    put_found(out, line, words, 3 + n)?;
    out.extend_from_slice(wanted)?;
    Ok(())
}

/// Appends the sentence on the words of a line by the usages that they come nearest to.
fn put_usage_sentence(
    alloc: Global,
    out: &mut Vec<u8>,
    line: &[u8],
    words: &[Text],
) -> Result<(), OutOfMemory>
    ensures { OnOk result (out.new.items
        ≡ out.old.items ++ usage_sentence line.now words.now (furthest 0 words.now usages)) }
{
    let n = furthest(alloc, words)?;
    put_found(out, line, words, n)?;
    put_usages_wanted(alloc, out, n, words)?;
    Ok(())
}

/// Appends the sentence on words that have none of the forms.
fn put_form_sentence(
    alloc: Global,
    out: &mut Vec<u8>,
    line: &[u8],
    words: &[Text],
) -> Result<(), OutOfMemory>
    ensures { OnOk result (out.new.items ≡ out.old.items ++ form_sentence line.now words.now) }
{
    if is_node_line(words) && 3 < words.len() {
        put_pairs_sentence(out, line, words)
    } else {
        put_usage_sentence(alloc, out, line, words)
    }
}

/// Appends the sentence on a line that has a byte at this place that isn't permitted.
fn put_bad_sentence(out: &mut Vec<u8>, line: &[u8], place: usize) -> Result<(), OutOfMemory>
    requires { place < length line.now }
    ensures { OnOk result (out.new.items ≡ out.old.items ++ at_byte line.now (Some place)) }
{
    if is_marked(line) {
        return out.extend_from_slice(
            b"Found a byte order mark, the bytes ef bb bf in column 1, wanted none: save the script without it.\n",
        );
    }
    put_byte_sentence(out, line[place], place)
}

/// Appends the sentence on a line that is `Word`, of which these are the words.
pub(crate) fn put_word_sentence(
    alloc: Global,
    out: &mut Vec<u8>,
    line: &[u8],
    words: &[Text],
) -> Result<(), OutOfMemory>
    requires are { words.now ≡ words_of line.now }
    ensures { OnOk result (out.new.items ≡ out.old.items ++ word_sentence line.now) }
{
    match first_bad(line) {
        Some(place) => put_bad_sentence(out, line, place),
        None => put_form_sentence(alloc, out, line, words),
    }
}

/// Appends what may stand for a word of a usage.
fn put_shape_wanted(out: &mut Vec<u8>, wanted: &[u8]) -> Result<(), OutOfMemory>
    ensures { OnOk result (out.new.items
        ≡ out.old.items ++ shape_wanted wanted.now (range_of wanted.now)) }
{
    match range_of(wanted) {
        None => out.extend_from_slice(
            b"NAME: a letter a to z, and at most 15 further letters, digits and underlines.\n",
        ),
        Some((least, most)) => {
            out.extend_from_slice(wanted)?;
            out.extend_from_slice(b": ")?;
            put_range(out, least, most)?;
            Ok(())
        }
    }
}

/// Appends the sentence on the first value at fault of a `node` line.
fn put_pair_value(
    out: &mut Vec<u8>,
    times: TimeRanges,
    line: &[u8],
    words: &[Text],
) -> Result<(), OutOfMemory>
    ensures { OnOk result (out.new.items ≡ out.old.items ++ pair_value times line.now words.now) }
{
    let at = match words {
        [_, _, _, pairs @ ..] => valued(times, pairs),
        _ => 0,
    };
    put_found(out, line, words, 3 + at)?;
    put_value_wanted(out, times, word_at(words, 2 + at))?;
    Ok(())
}

/// Appends the sentence on the first word at fault of a line that has the usage of these words.
fn put_usage_value(
    out: &mut Vec<u8>,
    times: TimeRanges,
    line: &[u8],
    wanted: &[Text],
    words: &[Text],
) -> Result<(), OutOfMemory>
    ensures { OnOk result (out.new.items
        ≡ out.old.items ++ value_sentence times line.now wanted.now words.now) }
{
    let n = right(wanted, words);
    if n < wanted.len() {
        put_found(out, line, words, n)?;
        put_shape_wanted(out, word_at(wanted, n))?;
        return Ok(());
    }
    put_pair_value(out, times, line, words)
}

/// Appends the sentence on the first word at fault of a line that has a form.
pub(crate) fn put_value_sentence(
    alloc: Global,
    out: &mut Vec<u8>,
    times: TimeRanges,
    line: &[u8],
    words: &[Text],
) -> Result<(), OutOfMemory>
    ensures { OnOk result (out.new.items
        ≡ out.old.items ++ value_sentence times line.now (usage_words words.now) words.now) }
{
    let n = furthest(alloc, words)?;
    let usage = first_of(alloc, n, words)?;
    let wanted = words_of(alloc, usage)?;
    put_usage_value(out, times, line, wanted.as_slice(), words)
}

/// How many words stand before the first key of a `node` line that stands twice.
fn twice_place(words: &[Text]) -> usize
    ensures value { result ≡ 3 + distinct [] (drop 3 words.now) }
    ensures few { result ≤ 3 + length words.now }
{
    match words {
        [_, _, _, pairs @ ..] => 3 + distinct(pairs),
        _ => 3,
    }
}

/// Appends the sentence on a key or a name that stands twice, or a clock that is slowed twice.
pub(crate) fn put_twice_sentence(
    out: &mut Vec<u8>,
    line: &[u8],
    words: &[Text],
) -> Result<(), OutOfMemory>
    ensures { OnOk result (out.new.items ≡ out.old.items ++ twice_sentence line.now words.now) }
{
    if is_clock_line(words) {
        put_found(out, line, words, 1)?;
        out.extend_from_slice(b"a node whose clock no line before slows.\n")?;
        return Ok(());
    }
    let at = twice_place(words);
    if at < words.len() {
        put_found(out, line, words, at)?;
        out.extend_from_slice(b"each key once, and of coins and seed one.\n")?;
        return Ok(());
    }
    put_found(out, line, words, 1)?;
    out.extend_from_slice(b"a name that no line before declares.\n")?;
    Ok(())
}
