//! What a program does with its words: it answers a form over files, or over standard input.

use crate::call::{Call, sort_words};
use crate::files::{FileCount, is_input};
use crate::shown::Shown;
use crate::words::{WordsFault, words_of};
use std::fs;
use std::io::{self, IsTerminal, Read};
use std::process::ExitCode;

/// The status where an answer is whole.
const VALID: u8 = 0;
/// The status where words are no form.
const NO_FORM: u8 = 2;
/// The status where an input can't be read.
const READ_FAULT: u8 = 3;
/// The status where standard output can't be written.
const WRITE_FAULT: u8 = 4;
/// The status where there is no memory.
const NO_MEMORY: u8 = 5;

/// What the help of a command says of the statuses.
const STATUSES: &str = "\
Status: 0 valid, 1 refused, 2 wrong words, 3 unreadable, 4 unwritable, 5 no memory, 6 too long
";

/// A program that answers words over inputs.
pub trait Program {
    /// What words ask for.
    type Form: Drop;

    /// The name of the program.
    fn name() -> &'static str;

    /// How it is called, in one line for a form.
    fn usage() -> &'static str;

    /// What it says of itself, with a line that begins with its name and the form for each form.
    fn help() -> &'static str;

    /// How many words a command has with itself, without its options and files.
    fn own_words(command: &str) -> usize;

    /// The form of these words: a command, its own words, and its options by the alphabet.
    fn form_of(words: &[String]) -> Option<Self::Form>;

    /// How many files a form takes.
    fn files_of(form: &Self::Form) -> FileCount;

    /// Whether a form writes bytes that are no text.
    fn writes_bytes(form: &Self::Form) -> bool;

    /// Whether what a form answers over several files names its file in each line. Then no line with the
    /// name stands before it.
    fn names_files(_form: &Self::Form) -> bool {
        false
    }

    /// Why these words, which are no options, are no form.
    fn fault_of(words: &[String]) -> WordsFault<'_>;

    /// The options of a command, a line each.
    fn options_of(command: &str) -> &'static str;

    /// An example of a command.
    fn example_of(command: &str) -> &'static str;

    /// Whether the program has such a command.
    fn has_command(command: &str) -> bool {
        Self::help()
            .lines()
            .any(|line| tells_of(line, Self::name(), command))
    }

    /// Answers a call over one input, which messages call by this name, and answers the exit status.
    fn answer<R: Read + Drop>(
        rt: &HostRuntime,
        call: &Call<'_, Self::Form>,
        name: &str,
        input: R,
    ) -> u8;

    /// Answers a call of a form that takes two files, which messages call by these names, and answers the exit
    /// status. A program without such a form needs none.
    fn answer_two<R: Read + Drop, Q: Read + Drop>(
        _rt: &HostRuntime,
        _call: &Call<'_, Self::Form>,
        _names: (&str, &str),
        _first: R,
        _second: Q,
    ) -> u8 {
        NO_FORM
    }
}

/// Says why a file can't be read, and answers the exit status. A standard error that can't be written changes no status.
fn unopened<P: Program>(rt: &HostRuntime, file: &str, error: &io::Error) -> u8 {
    let (program, file) = (P::name(), Shown::new(file));
    let _ = match error.kind() {
        io::ErrorKind::NotFound => eprintln!(rt; "{program}: {file}: no such file"),
        io::ErrorKind::PermissionDenied => eprintln!(rt;
            "{program}: {file}: no permission to read it"
        ),
        io::ErrorKind::IsADirectory => eprintln!(rt; "{program}: {file}: is a folder"),
        _ => eprintln!(rt; "{program}: {file}: {error}"),
    };
    READ_FAULT
}

/// Opens a file, unless it is a folder, of which nothing can be read.
fn open(rt: &HostRuntime, file: &str) -> io::Result<fs::File> {
    let input = fs::open(rt, file)?;
    if input.metadata()?.is_dir() {
        return Err(io::Error::from(io::ErrorKind::IsADirectory));
    }
    Ok(input)
}

/// The name by which messages call a file.
fn name_of(file: &str) -> &str {
    if is_input(file) {
        "standard input"
    } else {
        file
    }
}

/// Answers a call over a file, or over standard input where it is `-`.
fn answer_file<P: Program>(rt: &HostRuntime, call: &Call<'_, P::Form>, file: &str) -> u8 {
    let name = name_of(file);
    if is_input(file) {
        return P::answer(rt, call, name, rt.stdin());
    }
    match open(rt, file) {
        Ok(input) => P::answer(rt, call, name, input),
        Err(error) => unopened::<P>(rt, file, &error),
    }
}

/// Answers a call over two files, of which the first is open.
fn answer_second<P: Program, R: Read + Drop>(
    rt: &HostRuntime,
    call: &Call<'_, P::Form>,
    files: (&str, &str),
    first: R,
) -> u8 {
    let names = (name_of(files.0), name_of(files.1));
    if is_input(files.1) {
        return P::answer_two(rt, call, names, first, rt.stdin());
    }
    match open(rt, files.1) {
        Ok(second) => P::answer_two(rt, call, names, first, second),
        Err(error) => unopened::<P>(rt, files.1, &error),
    }
}

/// Answers a call over two files, of which one may be standard input.
fn answer_files<P: Program>(rt: &HostRuntime, call: &Call<'_, P::Form>, files: (&str, &str)) -> u8 {
    if is_input(files.0) {
        return answer_second::<P, _>(rt, call, files, rt.stdin());
    }
    match open(rt, files.0) {
        Ok(first) => answer_second::<P, _>(rt, call, files, first),
        Err(error) => unopened::<P>(rt, files.0, &error),
    }
}

/// Answers a call over each of its files. Of several each answer stands below a line with the file's name, unless
/// its lines have the name, and the status is the greatest of theirs. Nothing is read any more once standard output
/// can't be written.
fn answer_each<P: Program>(rt: &HostRuntime, call: &Call<'_, P::Form>) -> u8 {
    let has_heads = call.files.len() > 1 && !P::names_files(&call.form);
    let mut greatest = VALID;
    for file in call.files {
        let name = file.as_str();
        let shown = Shown::new(name);
        if has_heads && println!(rt; "{shown}:").is_err() {
            return WRITE_FAULT;
        }
        let status = answer_file::<P>(rt, call, name);
        if status == WRITE_FAULT {
            return WRITE_FAULT;
        }
        greatest = greatest.max(status);
    }
    greatest
}

/// Says that standard input is read, if it is a terminal, since the program would seem to hang.
fn say_input<P: Program>(rt: &HostRuntime) {
    if rt.stdin().is_terminal() {
        let program = P::name();
        let _ = eprintln!(rt; "{program}: reads what you type, up to the end (Ctrl-D)");
    }
}

/// Answers a call over its files, or over standard input where there are none.
fn answer_call<P: Program>(rt: &HostRuntime, call: &Call<'_, P::Form>) -> u8 {
    match (P::files_of(&call.form), call.files) {
        (FileCount::Two | FileCount::Named, [first, second]) => {
            answer_files::<P>(rt, call, (first.as_str(), second.as_str()))
        }
        (FileCount::None, _) => P::answer(rt, call, "standard input", rt.stdin()),
        (_, []) => {
            say_input::<P>(rt);
            P::answer(rt, call, "standard input", rt.stdin())
        }
        _ => answer_each::<P>(rt, call),
    }
}

/// Whether a line of a program's help tells of this command.
fn tells_of(line: &str, program: &str, command: &str) -> bool {
    let mut words = line.split(' ');
    words.next() == Some(program) && words.next() == Some(command)
}

/// Writes the lines of the program's help that tell of a command, its options and an example, the statuses, and where
/// more is said.
fn write_help<P: Program>(rt: &HostRuntime, command: &str) -> io::Result<()> {
    let program = P::name();
    for line in P::help().lines() {
        if tells_of(line, program, command) {
            println!(rt; "{line}")?;
        }
    }
    let (options, example) = (P::options_of(command), P::example_of(command));
    println!(rt; "{options}Example: {example}\n{STATUSES}man {program} says more")
}

/// Says why there are no words, and answers the exit status: there was no memory for them, or one isn't UTF-8.
fn unworded<P: Program>(rt: &HostRuntime, error: io::Error) -> u8 {
    let program = P::name();
    // A standard error that can't be written changes no status.
    if error.kind() == io::ErrorKind::OutOfMemory {
        return no_memory::<P>(rt);
    }
    let _ = eprintln!(rt;
        "{program}: a word isn't UTF-8 (a file of such a name can be given on standard input)"
    );
    NO_FORM
}

/// Says that there is no memory, and answers the exit status.
fn no_memory<P: Program>(rt: &HostRuntime) -> u8 {
    let program = P::name();
    let _ = eprintln!(rt; "{program}: out of memory");
    NO_MEMORY
}

/// Says what is wrong with words, and answers the exit status. A standard error that can't be written changes no
/// status.
fn unanswered<P: Program>(rt: &HostRuntime, fault: WordsFault<'_>) -> u8 {
    let (program, usage) = (P::name(), P::usage());
    let _ = eprintln!(rt;
        "{program}: {fault}\n{usage}\n{program} --help says what each command does"
    );
    NO_FORM
}

/// Whether a form writes bytes and standard output is a terminal, on which they would do harm.
fn harms_terminal<P: Program>(rt: &HostRuntime, form: &P::Form) -> bool {
    P::writes_bytes(form) && rt.stdout().is_terminal()
}

/// How many words behind the command belong to it.
fn behind_command<P: Program>(words: &[String]) -> usize {
    match words {
        [command, ..] => P::own_words(command.as_str()).saturating_sub(1),
        [] => 0,
    }
}

/// Answers the words after the program's name, and answers the exit status.
fn status_of<P: Program>(rt: &HostRuntime) -> u8 {
    let words = match words_of(rt) {
        Ok(words) => words,
        Err(error) => return unworded::<P>(rt, error),
    };
    let behind = behind_command::<P>(&words);
    let Ok(words) = sort_words(rt.alloc(), words, behind) else {
        return no_memory::<P>(rt);
    };
    if let Some(command) = words.helped_command::<P>() {
        return match write_help::<P>(rt, command) {
            Ok(()) => VALID,
            Err(_) => WRITE_FAULT,
        };
    }
    match words.call::<P>() {
        Ok(call) if harms_terminal::<P>(rt, &call.form) => {
            unanswered::<P>(rt, WordsFault::WritesBytes)
        }
        Ok(call) => answer_call::<P>(rt, &call),
        Err(fault) => unanswered::<P>(rt, fault),
    }
}

/// Runs a program with the words after its name.
pub fn run<P: Program>(rt: &HostRuntime) -> ExitCode {
    ExitCode::from(status_of::<P>(rt))
}
