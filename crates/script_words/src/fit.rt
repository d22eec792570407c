//! Which usage the words of a line come nearest to.
ghost use Rattle.std.specs.Prelude.{◌≡◌, ℕ, ◌≤◌, ◌<◌, ◌+◌, ◌++◌, drop, [], codes, nat_lt, slice_index_or, IfOk, OnOk, length, false, if◌then◌else◌};
ghost use Rattle.script_lines.specs.Words.{words_of};
ghost use Rattle.script_words.specs.Usage.{usages};
ghost use Rattle.script_words.specs.Fit.{reach, right, furthest, first_of, all_of};

use crate::text::{Text, words_of};
use crate::usage::{USAGES, fits, is_wrong, usage};
use std::alloc::Global;
use topology_stack::OutOfMemory;

/// How many words at the front may stand for those of a usage.
#[tactic(auto, using(crate::proofs::Usages::reach_none))]
pub(crate) fn reach(wanted: &[Text], words: &[Text]) -> usize
    ensures value { result ≡ reach wanted.now words.now }
    ensures few { result ≤ length words.now }
{
    let mut n = 0;
    while n < wanted.len() && n < words.len() {
        if !fits(wanted[n].as_bytes(), words[n].as_bytes()) {
            return n;
        }
        n += 1;
    }
    n
}

/// How many of them have no fault.
#[tactic(auto, using(crate::proofs::Usages::right_none))]
pub(crate) fn right(wanted: &[Text], words: &[Text]) -> usize
    ensures value { result ≡ right wanted.now words.now }
    ensures few { result ≤ length words.now }
{
    let mut n = 0;
    while n < wanted.len() && n < words.len() {
        if is_wrong(wanted[n].as_bytes(), words[n].as_bytes()) {
            return n;
        }
        n += 1;
    }
    n
}

/// The same as `reach`, of a usage by its number.
fn reach_of(alloc: Global, number: usize, words: &[Text]) -> Result<usize, OutOfMemory>
    requires { number < 24 }
    ensures value { IfOk result (λ n.
        n ≡ reach (words_of (slice_index_or usages number [])) words.now) }
    ensures few { IfOk result (λ n. n ≤ length words.now) }
{
    let wanted = words_of(alloc, usage(number))?;
    Ok(reach(wanted.as_slice(), words))
}

fn larger(most: usize, n: usize) -> usize
    ensures value { result ≡ (if nat_lt most n then n else most) }
    ensures few { (k : ℕ) → most ≤ k → n ≤ k → result ≤ k }
{
    if most < n { n } else { most }
}

/// The most words at the front that may stand for those of a usage.
#[tactic(auto, using(crate::proofs::Usages::further, crate::proofs::Usages::furthest_done))]
pub(crate) fn furthest(alloc: Global, words: &[Text]) -> Result<usize, OutOfMemory>
    ensures value { IfOk result (λ n. n ≡ furthest 0 words.now usages) }
    ensures few { IfOk result (λ n. n ≤ length words.now) }
{
    let mut most = 0;
    for number in 0..USAGES {
        most = larger(most, reach_of(alloc, number, words)?);
    }
    Ok(most)
}

/// The first usage for which so many words may stand.
#[tactic(auto, using(crate::proofs::Usages::first_hit, crate::proofs::Usages::first_miss, crate::proofs::Usages::first_done))]
pub(crate) fn first_of(
    alloc: Global,
    n: usize,
    words: &[Text],
) -> Result<&'static [u8], OutOfMemory>
    ensures { IfOk result (λ text. text.now ≡ first_of n words.now usages) }
{
    for number in 0..USAGES {
        if reach_of(alloc, number, words)? == n {
            return Ok(usage(number));
        }
    }
    Ok(&[])
}

/// Appends a usage, and ` or ` before it where it isn't the first.
fn put_usage(out: &mut Vec<u8>, some: bool, number: usize) -> Result<(), OutOfMemory>
    requires { number < 24 }
    ensures { OnOk result (out.new.items ≡ out.old.items
        ++ ((if some then codes " or " else []) ++ slice_index_or usages number [])) }
{
    if some {
        out.extend_from_slice(b" or ")?;
    }
    out.extend_from_slice(usage(number))?;
    Ok(())
}

/// Appends a usage where so many words may stand for it, and answers whether one stands there by then.
#[tactic(auto, using(crate::proofs::Usages::all_hit, crate::proofs::Usages::all_miss))]
fn put_one(
    alloc: Global,
    out: &mut Vec<u8>,
    some: bool,
    n: usize,
    number: usize,
    words: &[Text],
) -> Result<bool, OutOfMemory>
    requires { number < 24 }
    ensures { IfOk result (λ stands.
        out.new.items ++ all_of stands n words.now (drop (number + 1) usages)
        ≡ out.old.items ++ all_of some n words.now (drop number usages)) }
{
    if reach_of(alloc, number, words)? != n {
        return Ok(some);
    }
    put_usage(out, some, number)?;
    Ok(true)
}

/// Appends all usages for which so many words may stand.
#[tactic(auto, using(crate::proofs::Usages::all_done))]
pub(crate) fn put_all_of(
    alloc: Global,
    out: &mut Vec<u8>,
    n: usize,
    words: &[Text],
) -> Result<(), OutOfMemory>
    ensures { OnOk result (out.new.items
        ≡ out.old.items ++ all_of false n words.now usages) }
{
    let mut some = false;
    for number in 0..USAGES {
        some = put_one(alloc, out, some, n, number, words)?;
    }
    Ok(())
}
