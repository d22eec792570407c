//! The time stamps of a log, in microseconds.
ghost use Rattle.std.specs.Prelude.{◌≡◌, ◌<◌, length, position, IfSome, codes};
ghost use Rattle.std.specs.Option.{option_copied};
ghost use Rattle.log_line.specs.Time.{moment, thousandth, moment_of, before_colon, before_bracket, bracket_time, time_of, or_time};
ghost use Rattle.log_line.specs.Time.{date_time, front_time, behind_comma, to_comma, micros, record_time};
ghost use Rattle.log_line.specs.Words.{behind, or_whole};
ghost use Rattle.log_line.specs.Lists.{is_comma};

use crate::list::first_comma;
use crate::word::Word;
use jiff_fmt::temporal::parse_timestamp;
use line_words::of_digits;

/// What stands before a last colon.
fn before_colon(text: &[u8]) -> Option<&[u8]>
    ensures { option_copied result ≡ before_colon text.now }
{
    text.strip_suffix(b":")
}

/// Seconds and microseconds, where both are there.
fn moment(seconds: Option<u32>, micros: Option<u32>) -> Option<u64>
    ensures { result ≡ moment seconds micros }
{
    Some(u64::from(seconds?) * 1_000_000 + u64::from(micros?))
}

/// The thousandth part.
fn thousandth(nanos: Option<u32>) -> Option<u32>
    ensures { result ≡ thousandth nanos }
{
    Some(nanos? / 1_000)
}

/// What 1 to 10 digits, a point and 6 digits, or 9, spell in seconds.
#[tactic(auto, unfolding(crate::specs::Time::moment_of))]
fn moment_of(text: &[u8]) -> Option<u64>
    ensures { result ≡ moment_of text.now }
{
    let count = text.len();
    if count >= 8 && text[count - 7] == b'.' {
        return moment(
            of_digits(&text[..count - 7], 10, 10),
            of_digits(&text[count - 6..], 10, 6),
        );
    }
    if count >= 11 && text[count - 10] == b'.' {
        return moment(
            of_digits(&text[..count - 10], 10, 10),
            thousandth(of_digits(&text[count - 9..], 10, 9)),
        );
    }
    None
}

/// What stands before a last bracket.
fn before_bracket(text: &[u8]) -> Option<&[u8]>
    ensures { option_copied result ≡ before_bracket text.now }
{
    text.strip_suffix(b"]")
}

/// A text without a bracket that it begins with.
fn unbracketed(text: &[u8]) -> &[u8]
    ensures { result.now ≡ or_whole text.now (behind (codes "[") text.now) }
{
    match text.strip_prefix(b"[") {
        Some(rest) => rest,
        None => text,
    }
}

/// The time within brackets, the first of which may stand apart.
fn bracket_time(word: &Word) -> Option<u64>
    ensures { result ≡ bracket_time word.now }
{
    moment_of(before_bracket(unbracketed(word.as_bytes()))?)
}

/// The time of a word, where it is one.
pub(crate) fn time_of(word: &Word) -> Option<u64>
    ensures { result ≡ time_of word.now }
{
    moment_of(before_colon(word.as_bytes())?)
}

/// Microseconds since 1970 began, of a date and a time of day with its zone.
fn date_time(word: &Word) -> Option<u64>
    ensures { result ≡ date_time word.now }
{
    let time = parse_timestamp(word.as_bytes()).ok()?;
    if time.nanosecond < 0 {
        return None;
    }
    Some((time.nanosecond / 1_000) as u64)
}

/// The time before the kernel's words that a word is, where it is one.
pub(crate) fn front_time(word: &Word) -> Option<u64>
    ensures { result ≡ front_time word.now }
{
    if let Some(time) = bracket_time(word) {
        return Some(time);
    }
    if let Some(time) = moment_of(word.as_bytes()) {
        return Some(time);
    }
    date_time(word)
}

/// What stands behind the first comma.
fn behind_comma(text: &[u8]) -> &[u8]
    ensures { result.now ≡ behind_comma text.now }
{
    match first_comma(text) {
        Some(at) => &text[at + 1..],
        None => &[],
    }
}

/// What stands before the first comma.
fn to_comma(text: &[u8]) -> &[u8]
    ensures { result.now ≡ to_comma text.now }
{
    match first_comma(text) {
        Some(at) => &text[..at],
        None => text,
    }
}

/// The number of microseconds that at most 16 digits spell.
fn micros(text: &[u8]) -> Option<u64>
    ensures { result ≡ micros text.now }
{
    let count = text.len();
    if count <= 6 {
        return of_digits(text, 10, 6).map(u64::from);
    }
    moment(
        of_digits(&text[..count - 6], 10, 10),
        of_digits(&text[count - 6..], 10, 6),
    )
}

/// The time of a record of /dev/kmsg, its third field, which a driver's name ends.
pub(crate) fn record_time(word: &Word) -> Option<u64>
    ensures { result ≡ record_time word.now }
{
    micros(to_comma(behind_comma(behind_comma(word.as_bytes()))))
}
