//! The resets that the OHCI driver lists in its own log.
ghost use Rattle.std.specs.Prelude.{◌≡◌, ◌≤◌, None};
ghost use Rattle.std.specs.Option.{option_copied};
ghost use Rattle.log_line.specs.Listing.{before_comma, digits_in, is_of_local, local_in, begins, packet, listed};

use crate::device::device_of;
use crate::line::{Begun, LogLine};
use crate::local::local_of;
use crate::word::Word;
use line_words::of_digits;

/// What stands before a last comma.
fn before_comma(text: &[u8]) -> Option<&[u8]>
    ensures { option_copied result ≡ before_comma text.now }
{
    text.strip_suffix(b",")
}

/// The number that stands before a last comma.
fn digits_in(word: &Word, base: u32, most: usize) -> Option<u32>
    requires least { 2 ≤ base }
    requires greatest { base ≤ 16 }
    ensures { result ≡ digits_in base most (before_comma word.now) }
{
    of_digits(before_comma(word.as_bytes())?, base, most)
}

/// Whether these words begin what is said of the card's own node.
fn is_of_local(a: &Word, b: &Word, c: &Word) -> bool
    ensures { result ≡ is_of_local a.now b.now c.now }
{
    a.is(b"local") && b.is(b"node") && c.is(b"ID")
}

/// The node that the card itself is, where these words say so.
fn local_in(words: &[Word]) -> Option<u8>
    ensures { result ≡ local_in words.now }
{
    let [a, b, c, d, ..] = words else {
        return None;
    };
    if is_of_local(a, b, c) {
        return local_of(of_digits(d.as_bytes(), 16, 4));
    }
    None
}

/// The line of a reset, where each of its parts is there.
fn begins(
    time: Option<u64>,
    local: Option<u8>,
    card: Option<u64>,
    count: Option<u32>,
    generation: Option<u32>,
) -> LogLine
    ensures { result ≡ begins time local card count generation }
{
    match (card, count, generation) {
        (Some(card), Some(count), Some(generation)) => LogLine::Begins(Begun {
            card,
            time,
            generation,
            local,
            count,
        }),
        _ => LogLine::Other,
    }
}

/// The line of a packet, where both of its parts are there.
fn packet(card: Option<u64>, quad: Option<u32>) -> LogLine
    ensures { result ≡ packet card quad }
{
    match (card, quad) {
        (Some(card), Some(quad)) => LogLine::Packet { card, quad },
        _ => LogLine::Other,
    }
}

/// What the words behind the driver's name are.
pub(crate) fn listed(time: Option<u64>, words: &[Word]) -> LogLine
    ensures { result ≡ listed time words.now }
{
    let [device, a, b, c, d, behind @ ..] = words else {
        return LogLine::Other;
    };
    if a.is(b"selfID") && (b.is(b"0:") || b.is(b"n:")) {
        return packet(device_of(device), digits_in(c, 16, 8));
    }
    if b.is(b"selfIDs,") && c.is(b"generation") {
        let card = device_of(device);
        let count = of_digits(a.as_bytes(), 10, 10);
        return begins(time, local_in(behind), card, count, digits_in(d, 10, 10));
    }
    LogLine::Other
}
