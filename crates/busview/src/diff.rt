//! The form `diff`.

use capture_hint::{hint_text, likeness_of};
use diff_form::{DiffForm, DiffStop, Outcome, Side, diff_status, show_difference};
use io_edges::{ReadSource, WriteSink, write_whole};
use program_edges::{FrontSink, FrontSource, PipeWriter, Shown};
use std::io::{Read, Write};

/// The file of a capture, and how the capture begins.
#[derive(Clone, Copy)]
struct Begun<'a> {
    file: &'a str,
    front: &'a [u8],
}

/// Says on standard error what a refused capture looks like, where it looks like something else. A standard
/// error that can't be written changes no status.
fn say_hint(rt: &HostRuntime, begun: Begun<'_>) {
    let hint = hint_text(likeness_of(begun.front));
    if !hint.is_empty() {
        let file = Shown::new(begun.file);
        let _ = eprint!(rt; "{file}: ");
        let mut errors = WriteSink::new(rt.stderr());
        let _ = write_whole(&mut errors, hint);
    }
}

/// Says on standard error which capture is refused, as standard output does, since that may be a file; and of each
/// that is refused what it looks like.
fn say_refusals(rt: &HostRuntime, outcome: Outcome, text: &[u8], old: Begun<'_>, new: Begun<'_>) {
    if !matches!(outcome, Outcome::Same | Outcome::Differs) {
        let mut errors = WriteSink::new(rt.stderr());
        let _ = write_whole(&mut errors, text);
    }
    if matches!(outcome, Outcome::OldRefused | Outcome::BothRefused) {
        say_hint(rt, old);
    }
    if matches!(outcome, Outcome::NewRefused | Outcome::BothRefused) {
        say_hint(rt, new);
    }
}

/// Writes what differs between two captures.
fn diff_into<R: Read + Drop, Q: Read + Drop, W: Write>(
    rt: &HostRuntime,
    form: DiffForm,
    files: (&str, &str),
    old: R,
    new: Q,
    output: &mut W,
) -> Result<Outcome, DiffStop> {
    let mut before = FrontSource::new(rt.alloc(), ReadSource::new(old));
    let mut after = FrontSource::new(rt.alloc(), ReadSource::new(new));
    let mut sink = FrontSink::new(rt.alloc(), WriteSink::new(output));
    let shown = show_difference(
        rt.alloc(),
        form,
        files.0,
        &mut before,
        files.1,
        &mut after,
        &mut sink,
    );
    if let Ok(outcome) = shown {
        let old = Begun {
            file: files.0,
            front: before.front(),
        };
        let new = Begun {
            file: files.1,
            front: after.front(),
        };
        say_refusals(rt, outcome, sink.front(), old, new);
    }
    shown
}

/// Says on standard error why the difference of the files of these names wasn't written.
fn explain(rt: &HostRuntime, names: (&str, &str), stop: DiffStop) {
    let (old, new) = (Shown::new(names.0), Shown::new(names.1));
    let _ = match stop {
        DiffStop::ReadFault(Side::Old) => eprintln!(rt; "busview: reading {old} failed"),
        DiffStop::ReadFault(Side::New) => eprintln!(rt; "busview: reading {new} failed"),
        DiffStop::TooLong(Side::Old) => {
            eprintln!(rt; "busview: {old} has more than 1048576 bytes")
        }
        DiffStop::TooLong(Side::New) => {
            eprintln!(rt; "busview: {new} has more than 1048576 bytes")
        }
        DiffStop::WriteFault => eprintln!(rt; "busview: writing standard output failed"),
        DiffStop::Memory(_) => eprintln!(rt; "busview: out of memory"),
    };
}

/// Writes what differs between the captures of two files, and answers the status. Messages of faults call the files
/// by these names.
pub(crate) fn diff<R: Read + Drop, Q: Read + Drop>(
    rt: &HostRuntime,
    form: DiffForm,
    files: (&str, &str),
    names: (&str, &str),
    old: R,
    new: Q,
) -> u8 {
    let mut output = PipeWriter::new(rt.stdout());
    let shown = diff_into(rt, form, files, old, new, &mut output);
    if let Err(stop) = shown {
        if !output.is_broken() {
            explain(rt, names, stop);
        }
    }
    diff_status(shown)
}
