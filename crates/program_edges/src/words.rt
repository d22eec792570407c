//! The words of a call, and why they can't be answered.

use crate::commands::{nearest_command, other_program};
use crate::shown::Shown;
use std::fmt::{self, Display, Formatter, Write};
use std::rt::Env;
use std::{env, io};

/// The words after the program's name.
pub(crate) fn words_of<R: Env + AllocGlobal>(rt: &R) -> io::Result<Vec<String>> {
    let mut args = env::args(rt)?;
    let _name = args.next();
    let words = args.collect(rt.alloc())?;
    Ok(words)
}

/// Why words can't be answered. Its text is one line, without a line feed.
#[derive(Clone, Copy, Debug, PartialEq, Eq)]
pub enum WordsFault<'a> {
    /// There is no word.
    NoForm,
    /// The first word is no command of this program.
    UnknownCommand {
        program: &'static str,
        word: &'a str,
    },
    /// A word after a command begins with `-`, isn't `-` alone, and is none of its options.
    UnknownOption {
        form: &'a str,
        word: &'a str,
    },
    /// A command that reads nothing has files.
    TakesNoFile {
        form: &'a str,
    },
    /// A command of one input has several.
    TakesOneFile {
        form: &'a str,
    },
    /// A command of two inputs has more.
    TakesTwoFiles {
        form: &'a str,
    },
    /// A command of two inputs has standard input for both.
    InputTwice {
        form: &'a str,
    },
    /// A command lacks words, which are named as the usage names them.
    Lacks {
        form: &'a str,
        words: &'static str,
    },
    /// A word isn't what a command wants there.
    Misfit {
        form: &'a str,
        word: &'a str,
        wanted: &'static str,
    },
    /// The same, and it comes near to a word that the command would take.
    Near {
        form: &'a str,
        word: &'a str,
        wanted: &'static str,
        nearest: &'static str,
    },
    /// The answer would be bytes on a terminal.
    WritesBytes,
}

/// Writes that a program has no such command, and which other program has it, or which of its own comes near to it.
fn put_unknown<W: Write>(f: &mut Formatter<W>, program: &str, word: &str) -> fmt::Result {
    let shown = Shown::new(word);
    if let Some(other) = other_program(program, word) {
        write!(f, "unknown command {shown}; {other} has it")
    } else if let Some(nearest) = nearest_command(program, word) {
        write!(f, "unknown command {shown}; the nearest is {nearest}")
    } else {
        write!(f, "unknown command {shown}")
    }
}

impl Display for WordsFault<'_> {
    fn fmt<W: Write>(&self, f: &mut Formatter<W>) -> fmt::Result {
        match self {
            WordsFault::NoForm => f.write_str("no command given"),
            WordsFault::UnknownCommand { program, word } => put_unknown(f, program, word),
            WordsFault::UnknownOption { form, word } => {
                let word = Shown::new(word);
                write!(
                    f,
                    "{form}: {word} is no option of it (for a file of this name: -- {word})"
                )
            }
            WordsFault::TakesNoFile { form } => write!(f, "{form} takes no file"),
            WordsFault::TakesOneFile { form } => write!(f, "{form} takes one file at most"),
            WordsFault::TakesTwoFiles { form } => write!(f, "{form} takes two files"),
            WordsFault::InputTwice { form } => {
                write!(
                    f,
                    "{form}: standard input stands for one of the files at most"
                )
            }
            WordsFault::Lacks { form, words } => write!(f, "{form} needs {words}"),
            WordsFault::Misfit { form, word, wanted } => {
                let word = Shown::new(word);
                write!(f, "{form}: {word} isn't {wanted}")
            }
            WordsFault::Near {
                form,
                word,
                wanted,
                nearest,
            } => {
                let word = Shown::new(word);
                write!(f, "{form}: {word} isn't {wanted}; the nearest is {nearest}")
            }
            WordsFault::WritesBytes => f.write_str(
                "the answer is bytes, which would upset a terminal; send them to a file with > FILE",
            ),
        }
    }
}
