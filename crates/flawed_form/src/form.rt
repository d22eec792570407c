//! The words that ask for a capture with a flaw.
ghost use Rattle.std.specs.Prelude.{◌≡◌, ◌↔◌, ◌∷◌, [], Some, IfSome};
ghost use Rattle.flawed_form.specs.Form.{AreAllWordsOf, AreNumbersOf, AreWordsOf, AsksFlawed};
ghost use Rattle.flawed_form.specs.declared.form.FlawedForm.{FlawedForm};

use flawed_capture::Flaw;
use script_lines::number_of;
use self_id::Standard;

/// What `flawed KIND N SEED` asks for, and with `--1995` behind it: the capture of a made bus of a standard
/// with so many nodes, 1 to 63, and a flaw.
#[derive(Clone, Copy, Debug, PartialEq, Eq)]
pub struct FlawedForm {
    pub standard: Standard,
    pub flaw: Flaw,
    pub nodes: u8,
    pub seed: u32,
}

impl FlawedForm {
    /// The form of these two numbers.
    fn of_numbers(standard: Standard, flaw: Flaw, nodes: &[u8], seed: &[u8]) -> Option<FlawedForm>
        ensures found { IfSome result (λ form.
            (form.standard ≡ standard) × (form.flaw ≡ flaw) × AreNumbersOf form nodes.now seed.now) }
        ensures only { (form : FlawedForm) → form.standard ≡ standard → form.flaw ≡ flaw
            → AreNumbersOf form nodes.now seed.now → result ≡ Some form }
    {
        let nodes = u8::try_from(number_of(nodes)?).ok()?;
        let seed = number_of(seed)?;
        if nodes < 1 || nodes > 63 {
            return None;
        }
        Some(FlawedForm {
            standard,
            flaw,
            nodes,
            seed,
        })
    }

    /// The form of these three words behind `flawed`.
    fn of_three(standard: Standard, kind: &str, nodes: &str, seed: &str) -> Option<FlawedForm>
        ensures found { IfSome result (λ form. (form.standard ≡ standard)
            × AreWordsOf form (kind.now ∷ nodes.now ∷ seed.now ∷ [])) }
        ensures only { (form : FlawedForm) → form.standard ≡ standard
            → AreWordsOf form (kind.now ∷ nodes.now ∷ seed.now ∷ []) → result ≡ Some form }
    {
        let flaw = Flaw::of_word(kind)?;
        FlawedForm::of_numbers(standard, flaw, nodes.as_bytes(), seed.as_bytes())
    }

    #[tactic(auto, unfolding(crate::specs::Form::AreAllWordsOf))]
    /// The form of these four words.
    fn of_four(word: &str, kind: &str, nodes: &str, seed: &str) -> Option<FlawedForm>
        ensures { (form : FlawedForm) → (result ≡ Some form)
            ↔ AreAllWordsOf form (word.now ∷ kind.now ∷ nodes.now ∷ seed.now ∷ []) }
    {
        match word {
            "flawed" => FlawedForm::of_three(Standard::Ieee2000, kind, nodes, seed),
            _ => None,
        }
    }

    #[tactic(auto, unfolding(crate::specs::Form::AreAllWordsOf))]
    /// The form of these five words.
    fn of_five(word: &str, kind: &str, nodes: &str, seed: &str, year: &str) -> Option<FlawedForm>
        ensures { (form : FlawedForm) → (result ≡ Some form) ↔ AreAllWordsOf form
            (word.now ∷ kind.now ∷ nodes.now ∷ seed.now ∷ year.now ∷ []) }
    {
        match (word, year) {
            ("flawed", "--1995") => FlawedForm::of_three(Standard::Ieee1995, kind, nodes, seed),
            _ => None,
        }
    }

    /// The form of the words after the program's name. `None` exactly where they aren't this form's. It
    /// takes no memory.
    pub fn of_words(words: &[String]) -> Option<FlawedForm>
        ensures { (form : FlawedForm) → (result ≡ Some form) ↔ AsksFlawed words.now form }
    {
        match words {
            [word, kind, nodes, seed] => FlawedForm::of_four(
                word.as_str(),
                kind.as_str(),
                nodes.as_str(),
                seed.as_str(),
            ),
            [word, kind, nodes, seed, year] => FlawedForm::of_five(
                word.as_str(),
                kind.as_str(),
                nodes.as_str(),
                seed.as_str(),
                year.as_str(),
            ),
            _ => None,
        }
    }
}
