//! Which verb a word comes near to.
ghost use Rattle.std.specs.Prelude.{◌≡◌, ◌<◌, [], slice_index_or, IfOk};
ghost use Rattle.script_lines.specs.Words.{words_of};
ghost use Rattle.script_lines.specs.Form.{word_at};
ghost use Rattle.script_words.specs.Usage.{usages};
ghost use Rattle.script_words.specs.Near.{is_turned, differs_once, is_near, nearest_of, nearest};

use crate::text::{same, word_at, words_of};
use crate::usage::{USAGES, usage};
use std::alloc::Global;
use topology_stack::OutOfMemory;

/// Whether the texts are two characters in turned order, and then the same.
fn is_turned(one: &[u8], other: &[u8]) -> bool
    ensures { result ≡ is_turned one.now other.now }
{
    match (one, other) {
        ([a, b, cs @ ..], [c, d, ds @ ..]) => a == d && b == c && same(cs, ds),
        _ => false,
    }
}

/// Whether the texts are the same but for the first character of one or of both, or but for the turn
/// of two.
fn differs_once(one: &[u8], other: &[u8]) -> bool
    ensures { result ≡ differs_once one.now other.now }
{
    match (one, other) {
        ([], []) => true,
        ([], [_, ds @ ..]) => ds.is_empty(),
        ([_, cs @ ..], []) => cs.is_empty(),
        ([_, cs @ ..], [_, ds @ ..]) => {
            same(cs, ds) || same(one, ds) || same(cs, other) || is_turned(one, other)
        }
    }
}

/// Whether two texts differ once at most, behind what they begin with alike.
fn is_near(one: &[u8], other: &[u8]) -> bool
    ensures { result ≡ is_near one.now other.now }
{
    let mut left = one;
    let mut right = other;
    while let ([c, cs @ ..], [d, ds @ ..]) = (left, right) {
        if c != d {
            return differs_once(left, right);
        }
        left = cs;
        right = ds;
    }
    differs_once(left, right)
}

/// The first word of a usage, by its number.
fn verb_of(alloc: Global, number: usize) -> Result<&'static [u8], OutOfMemory>
    requires { number < 24 }
    ensures { IfOk result (λ verb.
        verb.now ≡ word_at (words_of (slice_index_or usages number [])) 0) }
{
    let words = words_of(alloc, usage(number))?;
    Ok(word_at(words.as_slice(), 0))
}

/// The first word of the first usage that begins near to a word.
#[tactic(auto, using(crate::proofs::Usages::near_hit, crate::proofs::Usages::near_miss, crate::proofs::Usages::near_done))]
fn nearest_of(alloc: Global, word: &[u8]) -> Result<&'static [u8], OutOfMemory>
    ensures { IfOk result (λ verb. verb.now ≡ nearest_of word.now usages) }
{
    for number in 0..USAGES {
        let verb = verb_of(alloc, number)?;
        if is_near(word, verb) {
            return Ok(verb);
        }
    }
    Ok(&[])
}

/// The verb that a word comes near to, capitals or not, or no characters.
#[tactic(auto, unfolding(crate::specs::Near::nearest))]
pub(crate) fn nearest(alloc: Global, word: &[u8]) -> Result<&'static [u8], OutOfMemory>
    ensures { IfOk result (λ verb. verb.now ≡ nearest word.now) }
{
    let small = word.to_ascii_lowercase(alloc)?;
    if same(&small, b"unplug") {
        Ok(b"pull")
    } else {
        nearest_of(alloc, &small)
    }
}
