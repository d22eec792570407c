//! What is wrong with words.

use flawed_capture::Flaw;
use program_edges::{WordsFault, nearest};
use script_lines::number_of;

/// Why these two words behind a form are no number of nodes and no seed.
fn numbers_fault<'a>(form: &'static str, nodes: &'a str, seed: &'a str) -> WordsFault<'a> {
    match number_of(nodes.as_bytes()) {
        Some(1..=63) => WordsFault::Misfit {
            form,
            word: seed,
            wanted: "a seed, 0 to 4294967295",
        },
        _ => WordsFault::Misfit {
            form,
            word: nodes,
            wanted: "a number of nodes, 1 to 63",
        },
    }
}

/// Why these words behind `script` are no number of nodes and no seed.
fn script_fault(words: &[String]) -> WordsFault<'_> {
    match words {
        [nodes, seed, ..] => numbers_fault("script", nodes.as_str(), seed.as_str()),
        _ => WordsFault::Lacks {
            form: "script",
            words: "N and SEED",
        },
    }
}

/// The faults that a made capture can have.
const KINDS: &[&str] = &[
    "BadLength",
    "BadInverse",
    "NotSelfId",
    "WrongId",
    "BadOrder",
    "Cut",
    "TwoParents",
    "Empty",
    "TooFewChildren",
    "TreesLeft",
    "AfterRoot",
    "NoRoot",
    "TooMany",
];

/// Why this word is no fault of a capture.
fn kind_fault(word: &str) -> WordsFault<'_> {
    let form = "flawed";
    match nearest(word, KINDS) {
        Some(nearest) => WordsFault::Near {
            form,
            word,
            wanted: "a fault of a capture",
            nearest,
        },
        None => WordsFault::Misfit {
            form,
            word,
            wanted: "a fault of a capture (man busview lists them)",
        },
    }
}

/// Why these words behind `flawed` are no fault, no number of nodes and no seed.
fn flawed_fault(words: &[String]) -> WordsFault<'_> {
    match words {
        [kind, ..] if Flaw::of_word(kind.as_str()).is_none() => kind_fault(kind.as_str()),
        [_, nodes, seed, ..] => numbers_fault("flawed", nodes.as_str(), seed.as_str()),
        _ => WordsFault::Lacks {
            form: "flawed",
            words: "KIND, N and SEED",
        },
    }
}

/// Why these words behind `capture` are no name.
fn capture_fault(words: &[String]) -> WordsFault<'_> {
    match words {
        [word, ..] => WordsFault::Misfit {
            form: "capture",
            word: word.as_str(),
            wanted: "a name of a node",
        },
        [] => WordsFault::Lacks {
            form: "capture",
            words: "NAME, a node of the script",
        },
    }
}

/// Why words that begin with no form are none.
pub(crate) fn fault_of(words: &[String]) -> WordsFault<'_> {
    let Some((word, others)) = words.split_first() else {
        return WordsFault::NoForm;
    };
    match word.as_str() {
        "script" => script_fault(others),
        "flawed" => flawed_fault(others),
        "capture" => capture_fault(others),
        word => WordsFault::UnknownCommand {
            program: "busview",
            word,
        },
    }
}
