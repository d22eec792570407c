//! The words that ask for a bus with the names of its nodes.
ghost use Rattle.std.specs.Prelude.{◌≡◌, ◌∷◌, [], ◌↔◌};
ghost use Rattle.named_form.specs.declared.form.NamedForm.{NamedForm};
ghost use Rattle.named_form.specs.Form.{standard_of, AreWordsBy, AsksNamed};

use self_id::Standard;

/// How the bus of a capture is shown with names, and by which standard the capture is read.
#[derive(Clone, Copy, Debug, PartialEq, Eq)]
pub enum NamedForm {
    /// As a drawing.
    Tree(Standard),
    /// As a graph for Graphviz.
    Dot(Standard),
}

impl NamedForm {
    /// The standard by which self-ID packets are read.
    pub fn standard(self) -> Standard
        ensures { result ≡ standard_of self }
    {
        match self {
            NamedForm::Tree(standard) | NamedForm::Dot(standard) => standard,
        }
    }
}

/// The form by which these two words ask.
fn of_two(word: &str, option: &str) -> Option<NamedForm>
    ensures { (form : NamedForm) → (result ≡ Some form)
        ↔ AreWordsBy form (word.now ∷ option.now ∷ []) }
{
    match (word, option) {
        ("tree", "--names") => Some(NamedForm::Tree(Standard::Ieee2000)),
        ("dot", "--names") => Some(NamedForm::Dot(Standard::Ieee2000)),
        _ => None,
    }
}

/// The form by which these three words ask.
fn of_three(word: &str, first: &str, second: &str) -> Option<NamedForm>
    ensures { (form : NamedForm) → (result ≡ Some form)
        ↔ AreWordsBy form (word.now ∷ first.now ∷ second.now ∷ []) }
{
    match (word, first, second) {
        ("tree", "--1995", "--names") => Some(NamedForm::Tree(Standard::Ieee1995)),
        ("dot", "--1995", "--names") => Some(NamedForm::Dot(Standard::Ieee1995)),
        _ => None,
    }
}

/// The form in which the words after the program's name, without the two files, ask for a bus with names. `None` exactly
/// if they don't ask for one. It takes no memory.
pub fn named_form(words: &[String]) -> Option<NamedForm>
    ensures { (form : NamedForm) → (result ≡ Some form) ↔ AsksNamed words.now form }
{
    match words {
        [word, option] => of_two(word.as_str(), option.as_str()),
        [word, first, second] => of_three(word.as_str(), first.as_str(), second.as_str()),
        _ => None,
    }
}
