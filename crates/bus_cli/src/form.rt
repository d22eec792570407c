//! The words of the program.
ghost use Rattle.std.specs.Prelude.{◌≡◌, ◌∷◌, [], ◌↔◌, codes};
ghost use Rattle.bus_cli.specs.Form.{AreWordsOf, Asks, standard_of};
ghost use Rattle.bus_cli.specs.declared.form.Form.{Form};

use about::About;
use script_lines::number_of;
use self_id::Standard;

/// What the program can be asked for of a capture.
#[derive(Clone, Copy, Debug, PartialEq, Eq)]
pub enum CaptureForm {
    /// `read`: the text of the tree that a capture spells by IEEE 1394a-2000.
    Read,
    /// `read95`: the same by IEEE Std 1394-1995.
    Read95,
    /// `maps`: the topology map and the speed map of the tree of `read`, with generation 1.
    Maps,
}

impl CaptureForm {
    /// By which standard a capture is read in this form.
    pub(crate) fn standard(self) -> Standard
        ensures { result ≡ standard_of self }
    {
        match self {
            CaptureForm::Read | CaptureForm::Maps => Standard::Ieee2000,
            CaptureForm::Read95 => Standard::Ieee1995,
        }
    }
}

/// What the program can be asked for.
#[derive(Clone, Copy, Debug, PartialEq, Eq)]
pub enum Form {
    /// Something of a capture.
    Capture(CaptureForm),
    /// `rom`: the text of a configuration ROM.
    Rom,
    /// `run`: what a script prints.
    Run,
    /// `advice`: which cables of a script's bus to pull, and what it then settles on.
    Advice,
    /// `make N SEED`: the summary of what the script prints that is made for 1 to 63 nodes and a
    /// seed. The numbers are written as in a script. Nothing is read.
    Make { nodes: u8, seed: u32 },
    /// `--help`, `-h` or `--version`: what the program says of itself. Nothing is read.
    OfItself(About),
}

impl Form {
    /// The form of this word.
    fn of_word(word: &str) -> Option<Form>
        ensures { (form : Form) → (result ≡ Some form) ↔ AreWordsOf form (word.now ∷ []) }
    {
        match word {
            "read" => Some(Form::Capture(CaptureForm::Read)),
            "read95" => Some(Form::Capture(CaptureForm::Read95)),
            "maps" => Some(Form::Capture(CaptureForm::Maps)),
            "rom" => Some(Form::Rom),
            "run" => Some(Form::Run),
            "advice" => Some(Form::Advice),
            "--help" | "-h" => Some(Form::OfItself(About::Help)),
            "--version" => Some(Form::OfItself(About::Version)),
            _ => None,
        }
    }

    /// The form of `make` with these two words behind it.
    fn of_make(nodes: &[u8], seed: &[u8]) -> Option<Form>
        ensures { (form : Form) → (result ≡ Some form)
            ↔ AreWordsOf form (codes "make" ∷ nodes.now ∷ seed.now ∷ []) }
    {
        let nodes = u8::try_from(number_of(nodes)?).ok()?;
        let seed = number_of(seed)?;
        (1..=63)
            .contains(&nodes)
            .then_some(Form::Make { nodes, seed })
    }

    /// The form of these three words.
    fn of_three(word: &str, nodes: &str, seed: &str) -> Option<Form>
        ensures { (form : Form) → (result ≡ Some form)
            ↔ AreWordsOf form (word.now ∷ nodes.now ∷ seed.now ∷ []) }
    {
        match word {
            "make" => Form::of_make(nodes.as_bytes(), seed.as_bytes()),
            _ => None,
        }
    }

    /// The form of the words after the program's name. `None` exactly where they are no form. It
    /// takes no memory.
    pub fn of_words(words: &[String]) -> Option<Form>
        ensures { (form : Form) → (result ≡ Some form) ↔ Asks words.now form }
    {
        match words {
            [word] => Form::of_word(word.as_str()),
            [word, nodes, seed] => { Form::of_three(word.as_str(), nodes.as_str(), seed.as_str()) }
            _ => None,
        }
    }
}

/// How the program is called, in one line for a form.
pub const USAGE: &str = "usage: busconf run [SCRIPT]\n       busconf advice [SCRIPT]\n       \
    busconf read [CAPTURE ..]\n       busconf read95 [CAPTURE ..]\n       \
    busconf maps [CAPTURE ..]\n       busconf rom [ROM ..]\n       busconf make N SEED";
