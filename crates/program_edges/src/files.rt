//! The files that words name.
ghost use Rattle.std.specs.Prelude.{◌≡◌, ◌↔◌, codes, IsOk, IsTrue};
ghost use Rattle.std.specs.Str.{bytes_eq};
ghost use Rattle.program_edges.specs.Files.{AreTaken, AreTwoFiles};
ghost use Rattle.program_edges.specs.Words.{begins_with_dash, is_end, is_option};

use crate::words::WordsFault;

/// How many files a form takes.
#[derive(Clone, Copy, Debug, PartialEq, Eq)]
pub enum FileCount {
    /// None: it reads nothing.
    None,
    /// One, or standard input.
    One,
    /// Two, of which one may be standard input.
    Two,
    /// A file of names and a capture, of which one may be standard input.
    Named,
    /// Any number, or standard input.
    Many,
}

/// Whether a word stands for standard input.
pub(crate) fn is_input(word: &str) -> bool
    ensures value { result ≡ bytes_eq word.now (codes "-") }
    ensures input { IsTrue result ↔ (word.now ≡ codes "-") }
{
    word == "-"
}

/// Whether a word is `--`.
pub(crate) fn is_end(word: &str) -> bool
    ensures { result ≡ is_end word.now }
{
    word == "--"
}

fn begins_with_dash(word: &[u8]) -> bool
    ensures { result ≡ begins_with_dash word.now }
{
    match word {
        [] => false,
        [first, ..] => *first == b'-',
    }
}

/// Whether a word is an option: it begins with `-`, and isn't `-` alone, which stands for standard input.
pub(crate) fn is_option(word: &str) -> bool
    ensures { result ≡ is_option word.now }
{
    begins_with_dash(word.as_bytes()) && !is_input(word)
}

/// Judges the files of a form of two files, which are called so.
fn judge_two<'a>(
    form: &'a str,
    files: &'a [String],
    words: &'static str,
) -> Result<(), WordsFault<'a>>
    ensures { IsOk result ↔ AreTwoFiles files.now }
{
    match files {
        [a, b] if is_input(a.as_str()) && is_input(b.as_str()) => {
            Err(WordsFault::InputTwice { form })
        }
        [_, _] => Ok(()),
        [] | [_] => Err(WordsFault::Lacks { form, words }),
        _ => Err(WordsFault::TakesTwoFiles { form }),
    }
}

/// Judges how many files a form has that takes so many. It is `Ok` exactly if there are as many as it takes.
pub(crate) fn judge_files<'a>(
    form: &'a str,
    files: &'a [String],
    count: FileCount,
) -> Result<(), WordsFault<'a>>
    ensures { IsOk result ↔ AreTaken count files.now }
{
    match count {
        FileCount::None if !files.is_empty() => Err(WordsFault::TakesNoFile { form }),
        FileCount::One if files.len() > 1 => Err(WordsFault::TakesOneFile { form }),
        FileCount::Two => judge_two(form, files, "OLD and NEW"),
        FileCount::Named => judge_two(form, files, "NAMES and CAPTURE"),
        _ => Ok(()),
    }
}
