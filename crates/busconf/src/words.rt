//! What is wrong with words.

use program_edges::WordsFault;
use script_lines::number_of;

/// Why these words behind `make` are no number of nodes and no seed.
pub(crate) fn make_fault(words: &[String]) -> WordsFault<'_> {
    let form = "make";
    match words {
        [nodes, seed, ..] => match number_of(nodes.as_bytes()) {
            Some(1..=63) => WordsFault::Misfit {
                form,
                word: seed.as_str(),
                wanted: "a seed, 0 to 4294967295",
            },
            _ => WordsFault::Misfit {
                form,
                word: nodes.as_str(),
                wanted: "a number of nodes, 1 to 63",
            },
        },
        _ => WordsFault::Lacks {
            form,
            words: "N and SEED",
        },
    }
}
