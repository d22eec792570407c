//! The words of the program.
ghost use Rattle.std.specs.Prelude.{◌≡◌, ◌∷◌, [], ◌↔◌, codes};
ghost use Rattle.bus_view.specs.Form.{AreWordsOf, Asks};
ghost use Rattle.bus_view.specs.declared.form.ViewForm.{ViewForm};

use about::About;
use reset_list::LogForm;
use script_lines::{names_are_tested, number_of};
use self_id::Standard;
use topology_stack::Name;

/// What can be shown of a capture.
#[derive(Clone, Copy, Debug, PartialEq, Eq)]
pub enum CaptureView {
    /// `packets`: a line for each pair, its packet field by field.
    Packets,
    /// `tree`: the tree of the bus, drawn with the root at the top.
    Tree,
    /// `dot`: the tree as a Graphviz graph.
    Dot,
    /// `json`: the tree, or the fault, as a line of JSON.
    Json,
}

/// How the faults of a script are explained.
#[derive(Clone, Copy, Debug, PartialEq, Eq)]
pub enum ExplainForm {
    /// `explain`: the line of each fault as `busconf run` writes it, and a sentence.
    Text,
    /// `explain --json`: a line of JSON for each fault.
    Json,
}

/// What the program can be asked for.
#[derive(Clone, Debug, Drop, PartialEq, Eq)]
pub enum ViewForm {
    /// Something of a capture, which is read by IEEE 1394a-2000, or with `--1995` behind the word by
    /// IEEE Std 1394-1995.
    Capture(CaptureView, Standard),
    /// `trace`: what happens on the bus of a script.
    Trace,
    /// `waves`: what changes on the bus of a script, as a Value Change Dump.
    Waves,
    /// `dot-run`: the last report of a script as a Graphviz graph.
    DotRun,
    /// `json-run`: the reports of a script as JSON, a line for each.
    JsonRun,
    /// `explain`: what stands at the faults of a script and what was wanted there; with `--json` behind it
    /// as lines of JSON.
    Explain(ExplainForm),
    /// `script N SEED`: the script that `busconf make N SEED` runs, for 1 to 63 nodes and a seed. The
    /// numbers are written as in a script. Nothing is read.
    Script { nodes: u8, seed: u32 },
    /// `capture NAME`: the self-ID packets that a bus analyser would have recorded on the bus of a
    /// script, in the part with the node of this name.
    ListOf(Name),
    /// `resets`: the bus at each reset in a Linux kernel's trace, which is read by IEEE 1394a-2000, or
    /// with `--1995` behind the word by IEEE Std 1394-1995; with `--short` behind both one line for each
    /// reset, or with `--json` a line of JSON.
    Resets(LogForm),
    /// `nosy`: the bus at each reset in a recording of `nosy-dump`, by the same words.
    Nosy(LogForm),
    /// `--help`, `-h` or `--version`: what the program says of itself. Nothing is read.
    OfItself(About),
}

impl ViewForm {
    /// The form of this word.
    fn of_word(word: &str) -> Option<ViewForm>
        ensures { (form : ViewForm) → (result ≡ Some form) ↔ AreWordsOf form (word.now ∷ []) }
    {
        match word {
            "packets" => Some(ViewForm::Capture(CaptureView::Packets, Standard::Ieee2000)),
            "tree" => Some(ViewForm::Capture(CaptureView::Tree, Standard::Ieee2000)),
            "dot" => Some(ViewForm::Capture(CaptureView::Dot, Standard::Ieee2000)),
            "json" => Some(ViewForm::Capture(CaptureView::Json, Standard::Ieee2000)),
            "trace" => Some(ViewForm::Trace),
            "waves" => Some(ViewForm::Waves),
            "dot-run" => Some(ViewForm::DotRun),
            "json-run" => Some(ViewForm::JsonRun),
            "explain" => Some(ViewForm::Explain(ExplainForm::Text)),
            "resets" => Some(ViewForm::Resets(LogForm::Text(Standard::Ieee2000))),
            "nosy" => Some(ViewForm::Nosy(LogForm::Text(Standard::Ieee2000))),
            "--help" | "-h" => Some(ViewForm::OfItself(About::Help)),
            "--version" => Some(ViewForm::OfItself(About::Version)),
            _ => None,
        }
    }

    /// The form of `capture` with this word behind it.
    fn of_capture(name: &[u8]) -> Option<ViewForm>
        ensures { (form : ViewForm) → (result ≡ Some form)
            ↔ AreWordsOf form (codes "capture" ∷ name.now ∷ []) }
    {
        names_are_tested();
        Some(ViewForm::ListOf(Name::new(name)?))
    }

    /// The form of these two words.
    fn of_two(word: &str, standard: &str) -> Option<ViewForm>
        ensures { (form : ViewForm) → (result ≡ Some form)
            ↔ AreWordsOf form (word.now ∷ standard.now ∷ []) }
    {
        match (word, standard) {
            ("packets", "--1995") => {
                Some(ViewForm::Capture(CaptureView::Packets, Standard::Ieee1995))
            }
            ("tree", "--1995") => Some(ViewForm::Capture(CaptureView::Tree, Standard::Ieee1995)),
            ("dot", "--1995") => Some(ViewForm::Capture(CaptureView::Dot, Standard::Ieee1995)),
            ("json", "--1995") => Some(ViewForm::Capture(CaptureView::Json, Standard::Ieee1995)),
            ("resets", "--1995") => Some(ViewForm::Resets(LogForm::Text(Standard::Ieee1995))),
            ("nosy", "--1995") => Some(ViewForm::Nosy(LogForm::Text(Standard::Ieee1995))),
            ("resets", "--short") => Some(ViewForm::Resets(LogForm::Short(Standard::Ieee2000))),
            ("nosy", "--short") => Some(ViewForm::Nosy(LogForm::Short(Standard::Ieee2000))),
            ("resets", "--json") => Some(ViewForm::Resets(LogForm::Json(Standard::Ieee2000))),
            ("nosy", "--json") => Some(ViewForm::Nosy(LogForm::Json(Standard::Ieee2000))),
            ("explain", "--json") => Some(ViewForm::Explain(ExplainForm::Json)),
            ("capture", name) => ViewForm::of_capture(name.as_bytes()),
            _ => None,
        }
    }

    /// The form of `script` with these two words behind it.
    fn of_script(nodes: &[u8], seed: &[u8]) -> Option<ViewForm>
        ensures { (form : ViewForm) → (result ≡ Some form)
            ↔ AreWordsOf form (codes "script" ∷ nodes.now ∷ seed.now ∷ []) }
    {
        let nodes = u8::try_from(number_of(nodes)?).ok()?;
        let seed = number_of(seed)?;
        (1..=63)
            .contains(&nodes)
            .then_some(ViewForm::Script { nodes, seed })
    }

    /// The form of these three words.
    fn of_three(word: &str, first: &str, second: &str) -> Option<ViewForm>
        ensures { (form : ViewForm) → (result ≡ Some form)
            ↔ AreWordsOf form (word.now ∷ first.now ∷ second.now ∷ []) }
    {
        match (word, first, second) {
            ("script", nodes, seed) => ViewForm::of_script(nodes.as_bytes(), seed.as_bytes()),
            ("resets", "--1995", "--short") => {
                Some(ViewForm::Resets(LogForm::Short(Standard::Ieee1995)))
            }
            ("nosy", "--1995", "--short") => {
                Some(ViewForm::Nosy(LogForm::Short(Standard::Ieee1995)))
            }
            ("resets", "--1995", "--json") => {
                Some(ViewForm::Resets(LogForm::Json(Standard::Ieee1995)))
            }
            ("nosy", "--1995", "--json") => {
                Some(ViewForm::Nosy(LogForm::Json(Standard::Ieee1995)))
            }
            _ => None,
        }
    }

    /// The form of the words after the program's name. `None` exactly where they are no form. It
    /// takes no memory.
    pub fn of_words(words: &[String]) -> Option<ViewForm>
        ensures { (form : ViewForm) → (result ≡ Some form) ↔ Asks words.now form }
    {
        match words {
            [word] => ViewForm::of_word(word.as_str()),
            [word, standard] => ViewForm::of_two(word.as_str(), standard.as_str()),
            [word, first, second] => {
                ViewForm::of_three(word.as_str(), first.as_str(), second.as_str())
            }
            _ => None,
        }
    }
}

/// How the program is called, in one line for a form.
pub const VIEW_USAGE: &str = "usage: busview packets [--1995] [CAPTURE ..]\n       \
    busview tree [--1995] [CAPTURE ..]\n       busview dot [--1995] [CAPTURE]\n       \
    busview json [--1995] [CAPTURE]\n       \
    busview trace [SCRIPT]\n       busview waves [SCRIPT]\n       \
    busview dot-run [SCRIPT]\n       busview json-run [SCRIPT]\n       \
    busview explain [--json] [SCRIPT]\n       busview capture NAME [SCRIPT]\n       \
    busview script N SEED\n       busview flawed KIND N SEED [--1995]\n       \
    busview resets [--1995] [--short] [--json] [LOG ..]\n       \
    busview nosy [--1995] [--short] [--json] [DUMP ..]\n       \
    busview diff [--1995] [--json] OLD NEW\n       busview import [--reset=K] [INPUT]";
