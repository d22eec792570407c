//! The words that ask for the difference of two captures, and how it is shown.
ghost use Rattle.std.specs.Prelude.{◌≡◌, ◌∷◌, [], ◌↔◌};
ghost use Rattle.diff_form.specs.declared.form.DiffForm.{DiffForm};
ghost use Rattle.diff_form.specs.Form.{standard_of, AreWordsBy, AsksDiff};

use self_id::Standard;

/// How the difference of two captures is shown, and by which standard they are read.
#[derive(Clone, Copy, Debug, PartialEq, Eq)]
pub enum DiffForm {
    /// For people: a line for each change.
    Text(Standard),
    /// For programs: one line of JSON.
    Json(Standard),
}

impl DiffForm {
    /// The standard by which self-ID packets are read.
    pub fn standard(self) -> Standard
        ensures { result ≡ standard_of self }
    {
        match self {
            DiffForm::Text(standard) | DiffForm::Json(standard) => standard,
        }
    }
}

/// The form by which this word asks.
fn of_word(word: &str) -> Option<DiffForm>
    ensures { (form : DiffForm) → (result ≡ Some form) ↔ AreWordsBy form (word.now ∷ []) }
{
    match word {
        "diff" => Some(DiffForm::Text(Standard::Ieee2000)),
        _ => None,
    }
}

/// The form by which these two words ask.
fn of_two(word: &str, option: &str) -> Option<DiffForm>
    ensures { (form : DiffForm) → (result ≡ Some form)
        ↔ AreWordsBy form (word.now ∷ option.now ∷ []) }
{
    match (word, option) {
        ("diff", "--1995") => Some(DiffForm::Text(Standard::Ieee1995)),
        ("diff", "--json") => Some(DiffForm::Json(Standard::Ieee2000)),
        _ => None,
    }
}

/// The form by which these three words ask.
fn of_three(word: &str, first: &str, second: &str) -> Option<DiffForm>
    ensures { (form : DiffForm) → (result ≡ Some form)
        ↔ AreWordsBy form (word.now ∷ first.now ∷ second.now ∷ []) }
{
    match (word, first, second) {
        ("diff", "--1995", "--json") => Some(DiffForm::Json(Standard::Ieee1995)),
        _ => None,
    }
}

/// The form in which the words after the program's name, without the two files, ask for a difference. `None` exactly
/// if they don't ask for one. It takes no memory.
pub fn diff_form(words: &[String]) -> Option<DiffForm>
    ensures { (form : DiffForm) → (result ≡ Some form) ↔ AsksDiff words.now form }
{
    match words {
        [word] => of_word(word.as_str()),
        [word, option] => of_two(word.as_str(), option.as_str()),
        [word, first, second] => of_three(word.as_str(), first.as_str(), second.as_str()),
        _ => None,
    }
}
