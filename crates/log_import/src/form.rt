//! The words that ask for one reset of a log.
ghost use Rattle.std.specs.Prelude.{◌≡◌, ◌∷◌, [], ◌↔◌, ℕ, Some};
ghost use Rattle.std.specs.Option.{option_copied};
ghost use Rattle.log_line.specs.Words.{behind};
ghost use Rattle.log_import.specs.Form.{from_one, number_of_option, AreWordsOf, AsksReset};

use line_words::of_digits;

/// A number from 1.
fn from_one(number: Option<u32>) -> Option<u32>
    ensures { result ≡ from_one number }
{
    match number {
        Some(number) => { if number == 0 { None } else { Some(number) } }
        None => None,
    }
}

/// What stands behind a key that a word begins with.
fn behind<'a>(key: &[u8], word: &'a [u8]) -> Option<&'a [u8]>
    ensures { option_copied result ≡ behind key.now word.now }
{
    word.strip_prefix(key)
}

/// The number of `--reset=K`.
#[tactic(auto, unfolding(crate::specs::Form::number_of_option))]
fn number_of_option(option: &[u8]) -> Option<u32>
    ensures { result ≡ number_of_option option.now }
{
    match behind(b"--reset=", option) {
        Some(digits) => from_one(of_digits(digits, 10, 10)),
        None => None,
    }
}

/// The number of the reset for which these two words ask.
#[tactic(auto, unfolding(crate::specs::Form::AreWordsOf))]
fn of_two(word: &str, option: &str) -> Option<u32>
    ensures { (k : ℕ) → (result ≡ Some k) ↔ AreWordsOf k (word.now ∷ option.now ∷ []) }
{
    match word {
        "import" => number_of_option(option.as_bytes()),
        _ => None,
    }
}

/// The number of the reset, from 1, for which the words after the program's name ask, without the file. `None` exactly
/// where they don't ask for a reset. It takes no memory.
pub fn reset_asked(words: &[String]) -> Option<u32>
    ensures { (k : ℕ) → (result ≡ Some k) ↔ AsksReset words.now k }
{
    match words {
        [word, option] => of_two(word.as_str(), option.as_str()),
        _ => None,
    }
}
