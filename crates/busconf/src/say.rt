//! What the program says beside its answers. A standard error that can't be written changes no status.

use bus_cli::{CaptureForm, Form, MAX_INPUT, NO_MEMORY, READ_FAULT, TOO_LONG, WRITE_FAULT};
use capture_hint::{Likeness, hint_text, likeness_of, other_hint};
use io_edges::{WriteSink, write_whole};
use program_edges::Shown;

/// What is said of a refused ROM whose quadlets have their bytes turned round.
const TURNED_ROM: &[u8] =
    b"busconf: quadlet 1 is 1394 with its bytes turned round. A ROM of it: perl -0777 -ne 'print pack(\"N*\", unpack(\"V*\", $_))'\n";

/// Says on standard error what input looks like that a form refused, where it looks like something else, and what
/// reads it.
pub(crate) fn say_hint(rt: &HostRuntime, form: Form, front: &[u8]) {
    let likeness = likeness_of(front);
    let hint: &[u8] = match form {
        Form::Capture(_) => hint_text(likeness),
        Form::Rom => match likeness {
            Some(Likeness::TurnedRom) => TURNED_ROM,
            Some(Likeness::Rom) => b"",
            _ => other_hint(front),
        },
        Form::Run | Form::Advice => other_hint(front),
        _ => b"",
    };
    let mut errors = WriteSink::new(rt.stderr());
    let _ = write_whole(&mut errors, hint);
}

/// Says on standard error what was refused, where another program reads standard output.
pub(crate) fn say_refusal(rt: &HostRuntime, form: Form, line: &[u8]) {
    if form == Form::Capture(CaptureForm::Maps) {
        let mut errors = WriteSink::new(rt.stderr());
        let _ = write_whole(&mut errors, line);
    }
}

/// Says on standard error why of an input nothing was written, or not all.
pub(crate) fn explain(rt: &HostRuntime, status: u8, name: &str) {
    let name = Shown::new(name);
    let _ = match status {
        READ_FAULT => eprintln!(rt; "busconf: reading {name} failed"),
        WRITE_FAULT => eprintln!(rt; "busconf: writing standard output failed"),
        NO_MEMORY => eprintln!(rt; "busconf: out of memory"),
        TOO_LONG => eprintln!(rt; "busconf: {name} has more than {MAX_INPUT} bytes"),
        _ => Ok(()),
    };
}
