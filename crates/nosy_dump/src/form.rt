//! The words that ask for the resets of a dump.
ghost use Rattle.std.specs.Prelude.{◌≡◌, ◌∷◌, [], ◌↔◌};
ghost use Rattle.reset_list.specs.declared.form.LogForm.{LogForm};
ghost use Rattle.nosy_dump.specs.Form.{AreWordsBy, AsksDump};

use reset_list::LogForm;
use self_id::Standard;

/// The form by which this word asks.
fn of_word(word: &str) -> Option<LogForm>
    ensures { (form : LogForm) → (result ≡ Some form) ↔ AreWordsBy form (word.now ∷ []) }
{
    match word {
        "nosy" => Some(LogForm::Text(Standard::Ieee2000)),
        _ => None,
    }
}

/// The form by which these two words ask.
fn of_two(word: &str, option: &str) -> Option<LogForm>
    ensures { (form : LogForm) → (result ≡ Some form)
        ↔ AreWordsBy form (word.now ∷ option.now ∷ []) }
{
    match (word, option) {
        ("nosy", "--1995") => Some(LogForm::Text(Standard::Ieee1995)),
        ("nosy", "--short") => Some(LogForm::Short(Standard::Ieee2000)),
        ("nosy", "--json") => Some(LogForm::Json(Standard::Ieee2000)),
        _ => None,
    }
}

/// The form by which these three words ask.
fn of_three(word: &str, first: &str, second: &str) -> Option<LogForm>
    ensures { (form : LogForm) → (result ≡ Some form)
        ↔ AreWordsBy form (word.now ∷ first.now ∷ second.now ∷ []) }
{
    match (word, first, second) {
        ("nosy", "--1995", "--short") => Some(LogForm::Short(Standard::Ieee1995)),
        ("nosy", "--1995", "--json") => Some(LogForm::Json(Standard::Ieee1995)),
        _ => None,
    }
}

/// The form in which the words after the program's name ask for the resets of a dump. `None` exactly where
/// they don't ask for them. It takes no memory.
pub fn dump_form(words: &[String]) -> Option<LogForm>
    ensures { (form : LogForm) → (result ≡ Some form) ↔ AsksDump words.now form }
{
    match words {
        [word] => of_word(word.as_str()),
        [word, option] => of_two(word.as_str(), option.as_str()),
        [word, first, second] => of_three(word.as_str(), first.as_str(), second.as_str()),
        _ => None,
    }
}
