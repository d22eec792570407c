//! The commands `tree` and `dot` with the names of a bus's nodes.

use crate::say::say_hints;
use bus_view::{CaptureView, ViewForm};
use io_edges::{ReadSource, WriteSink};
use named_form::{
    Input, NamedForm, NamedStop, NamesFault, NamesFaultKind, Outcome, named_status, show_named,
};
use program_edges::{FrontSink, FrontSource, PipeWriter, Shown};
use std::io::{Read, Write};

/// What is wrong with a line of a file of names.
fn fault_words(kind: NamesFaultKind) -> &'static str {
    match kind {
        NamesFaultKind::BadId => {
            "its first word is no ID of a node, 0 to 62 (NAMES comes first, and then CAPTURE)"
        }
        NamesFaultKind::BadName => {
            "no name follows the ID: 1 to 64 ASCII characters that can be printed, without \" and \\"
        }
        NamesFaultKind::Twice => "a later line names the same node",
    }
}

/// Says what is wrong with the file of names that is called so.
fn say_fault(rt: &HostRuntime, file: &str, fault: NamesFault) {
    let (file, line, why) = (Shown::new(file), fault.line, fault_words(fault.kind));
    let _ = eprintln!(rt; "busview: {file}: line {line}: {why}");
}

/// The form of the top call that shows the same without names.
fn bare_form(form: NamedForm) -> ViewForm {
    match form {
        NamedForm::Tree(standard) => ViewForm::Capture(CaptureView::Tree, standard),
        NamedForm::Dot(standard) => ViewForm::Capture(CaptureView::Dot, standard),
    }
}

/// Writes the bus of a capture with names.
fn named_into<R: Read + Drop, Q: Read + Drop, W: Write>(
    rt: &HostRuntime,
    form: NamedForm,
    names: R,
    capture: Q,
    output: &mut W,
) -> Result<Outcome, NamedStop> {
    let mut file = ReadSource::new(names);
    let mut source = FrontSource::new(rt.alloc(), ReadSource::new(capture));
    let mut sink = FrontSink::new(rt.alloc(), WriteSink::new(output));
    let shown = show_named(rt.alloc(), form, &mut file, &mut source, &mut sink);
    if let Ok(Outcome::Refused) = shown {
        let bare = bare_form(form);
        say_hints(rt, &bare, named_status(shown), source.front(), sink.front());
    }
    shown
}

/// Says on standard error why the bus of the files of these names wasn't written.
fn explain(rt: &HostRuntime, files: (&str, &str), stop: NamedStop) {
    let (names, capture) = (Shown::new(files.0), Shown::new(files.1));
    let _ = match stop {
        NamedStop::ReadFault(Input::Names) => eprintln!(rt; "busview: reading {names} failed"),
        NamedStop::ReadFault(Input::Capture) => eprintln!(rt; "busview: reading {capture} failed"),
        NamedStop::TooLong(Input::Names) => {
            eprintln!(rt; "busview: {names} has more than 1048576 bytes")
        }
        NamedStop::TooLong(Input::Capture) => {
            eprintln!(rt; "busview: {capture} has more than 1048576 bytes")
        }
        NamedStop::WriteFault => eprintln!(rt; "busview: writing standard output failed"),
        NamedStop::Memory(_) => eprintln!(rt; "busview: out of memory"),
    };
}

/// Writes the bus of a capture with the names of a file, and answers the status. Messages call the two inputs by these
/// names.
pub(crate) fn named<R: Read + Drop, Q: Read + Drop>(
    rt: &HostRuntime,
    form: NamedForm,
    files: (&str, &str),
    names: R,
    capture: Q,
) -> u8 {
    let mut output = PipeWriter::new(rt.stdout());
    let shown = named_into(rt, form, names, capture, &mut output);
    match shown {
        Ok(Outcome::Misnamed(fault)) => say_fault(rt, files.0, fault),
        Ok(_) => {}
        Err(stop) if !output.is_broken() => explain(rt, files, stop),
        Err(_) => {}
    }
    named_status(shown)
}
