//! The numbers of a log.
ghost use Rattle.std.specs.Prelude.{◌≡◌};
ghost use Rattle.log_line.specs.Number.{number_of};

use line_words::of_digits;

#[tactic(auto, unfolding(crate::specs::Number::number_of))]
/// The number that a word spells: 1 to 10 decimal digits, or `0x` or `0X` and 1 to 8 hexadecimal
/// digits of either case. `None` exactly where it spells none below 2^32.
pub(crate) fn number_of(word: &[u8]) -> Option<u32>
    ensures { result ≡ number_of word.now }
{
    if let Some(digits) = word.strip_prefix(b"0x") {
        return of_digits(digits, 16, 8);
    }
    if let Some(digits) = word.strip_prefix(b"0X") {
        return of_digits(digits, 16, 8);
    }
    of_digits(word, 10, 10)
}
