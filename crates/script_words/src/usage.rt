//! The lines of a script as docs write them.
ghost use Rattle.std.specs.Prelude.{◌≡◌, ◌<◌, [], is_some, slice_index_or};
ghost use Rattle.script_lines.specs.Shape.{fits, wrong, wrong_number};
ghost use Rattle.script_words.specs.Usage.{usages, range_of, is_choice, shape_of};

use crate::text::same;
use script_lines::{Name, names_are_tested, number_of};

/// How many usages there are.
pub(crate) const USAGES: usize = 24;

/// A line as docs write it.
#[tactic(auto, unfolding(crate::specs::Usage::usages))]
pub(crate) fn usage(number: usize) -> &'static [u8]
    requires { number < 24 }
    ensures { result.now ≡ slice_index_or usages number [] }
{
    match number {
        0 => b"node NAME PORTS",
        1 => b"plug NAME PORT NAME PORT",
        2 => b"pull NAME PORT",
        3 => b"reset NAME",
        4 => b"turn COUNT",
        5 => b"hold NAME PORT TURNS",
        6 => b"settle",
        7 => b"config NAME ROOT -",
        8 => b"config NAME - GAP",
        9 => b"config NAME ROOT GAP",
        10 => b"csr NAME read OFFSET",
        11 => b"csr NAME write OFFSET VALUE",
        12 => b"csr NAME lock OFFSET KIND ARG VALUE",
        13 => b"look NAME",
        14 => b"allocate NAME CHANNEL UNITS",
        15 => b"release NAME CHANNEL UNITS",
        16 => b"manager NAME",
        17 => b"plan NAME",
        18 => b"maps NAME",
        19 => b"delay D",
        20 => b"times 1394a NANOSECONDS",
        21 => b"times 1394-1995 NANOSECONDS",
        22 => b"clock NAME PPM",
        _ => b"clock NAME PPM TURN",
    }
}

/// The least and the greatest number that a word in capitals stands for.
pub(crate) fn range_of(word: &[u8]) -> Option<(u32, u32)>
    ensures { result ≡ range_of word.now }
{
    if same(word, b"PORTS") {
        Some((1, 16))
    } else if same(word, b"PORT") {
        Some((0, u32::MAX))
    } else if same(word, b"COUNT") {
        Some((1, 2_000_000))
    } else if same(word, b"TURNS") {
        Some((1, 65_535))
    } else if same(word, b"ROOT") {
        Some((0, 62))
    } else if same(word, b"GAP") {
        Some((0, 63))
    } else if same(word, b"OFFSET") {
        Some((0, u32::MAX))
    } else if same(word, b"VALUE") {
        Some((0, u32::MAX))
    } else if same(word, b"ARG") {
        Some((0, u32::MAX))
    } else if same(word, b"KIND") {
        Some((0, 255))
    } else if same(word, b"CHANNEL") {
        Some((0, 63))
    } else if same(word, b"UNITS") {
        Some((0, 4915))
    } else if same(word, b"D") {
        Some((1, 16))
    } else if same(word, b"NANOSECONDS") {
        Some((1, u32::MAX))
    } else if same(word, b"PPM") {
        Some((1, 1_000_000))
    } else if same(word, b"TURN") {
        Some((1, 2_000_000))
    } else {
        None
    }
}

fn is_choice(word: &[u8]) -> bool
    ensures { result ≡ is_choice word.now }
{
    same(word, b"ROOT") || same(word, b"GAP")
}

/// Whether a word may stand for this one of a usage.
pub(crate) fn fits(wanted: &[u8], word: &[u8]) -> bool
    ensures { result ≡ fits (shape_of wanted.now) word.now }
{
    if same(wanted, b"NAME") {
        return true;
    }
    match range_of(wanted) {
        None => word == wanted,
        Some(_) => !is_choice(wanted) || !same(word, b"-"),
    }
}

/// Whether a word is no number of this range.
pub(crate) fn is_out(word: &[u8], least: u32, most: u32) -> bool
    ensures { result ≡ is_some (wrong_number least most word.now) }
{
    match number_of(word) {
        None => true,
        Some(n) => n < least || most < n,
    }
}

/// Whether a word that may stand for this one of a usage is at fault.
pub(crate) fn is_wrong(wanted: &[u8], word: &[u8]) -> bool
    ensures { result ≡ is_some (wrong (shape_of wanted.now) word.now) }
{
    names_are_tested();
    if same(wanted, b"NAME") {
        return Name::new(word).is_none();
    }
    match range_of(wanted) {
        None => false,
        Some((least, most)) => is_out(word, least, most),
    }
}
