//! What the program says beside its answers. A standard error that can't be written changes no status.

use bus_cli::{MAX_INPUT, NO_MEMORY, READ_FAULT, REFUSED, TOO_LONG, WRITE_FAULT};
use bus_view::{CaptureView, ViewForm};
use capture_hint::{begins_capture, hint_text, likeness_of, other_hint};
use io_edges::{WriteSink, write_whole};
use program_edges::Shown;
use reset_list::LogForm;
use script_lines::number_of;
use std::str;
use topology_stack::Name;

/// How many bytes of an input are kept.
const KEPT: usize = 8_192;

/// All that is shown of a log without an event.
const NO_EVENTS: &[u8] = b"resets 0 refused 0 cards 0\n";

/// The same as JSON.
const NO_EVENTS_JSON: &[u8] =
    b"{\"schema\":1,\"totals\":{\"resets\":0,\"refused\":0,\"cards\":0}}\n";

/// All that is shown of a dump without a bus reset, where nothing is at fault.
const NO_RESETS: &[u8] = b"resets 0 refused 0\n";

/// The same as JSON.
const NO_RESETS_JSON: &[u8] = b"{\"schema\":1,\"totals\":{\"resets\":0,\"refused\":0}}\n";

/// Whether these bytes stand among others.
fn has(bytes: &[u8], part: &[u8]) -> bool {
    for at in 0..bytes.len() {
        if bytes[at..].starts_with(part) {
            return true;
        }
    }
    false
}

/// Whether this is shown of a log without an event.
fn has_no_event(form: &ViewForm, output: &[u8]) -> bool {
    match form {
        ViewForm::Resets(LogForm::Text(_) | LogForm::Short(_)) => output == NO_EVENTS,
        ViewForm::Resets(LogForm::Json(_)) => output == NO_EVENTS_JSON,
        _ => false,
    }
}

/// Whether this is shown of a dump without a bus reset, where nothing is at fault.
fn has_no_reset(form: &ViewForm, output: &[u8]) -> bool {
    match form {
        ViewForm::Nosy(LogForm::Text(_) | LogForm::Short(_)) => output == NO_RESETS,
        ViewForm::Nosy(LogForm::Json(_)) => output == NO_RESETS_JSON,
        _ => false,
    }
}

/// What is said of a log that begins so and has no event.
fn why_no_event(front: &[u8]) -> &'static str {
    if front.is_empty() {
        "busview: the log is empty"
    } else if front.starts_with(b"\x1f\x8b") {
        "busview: no line of this log is an event: it is compressed, so gzip -d has to unpack it"
    } else if has(front, b"self_id_sequence:") {
        "busview: no line of this log is an event bus_reset_handle or self_id_complete; self_id_sequence is passed over, since it has no whole list (docs/CAPTURES.md)"
    } else {
        "busview: no line of this log is an event bus_reset_handle or self_id_complete, or a packet of the OHCI driver's log (docs/CAPTURES.md says how to switch them on)"
    }
}

/// What is said of a dump that begins so and has no bus reset.
fn why_no_reset(front: &[u8]) -> &'static str {
    if front.is_empty() {
        "busview: the dump is empty"
    } else {
        "busview: no record of this dump is a bus reset: nosy-dump records one only where it comes while it runs"
    }
}

/// Whether the form's text is made for another program to read.
fn is_piped(form: &ViewForm) -> bool {
    matches!(
        form,
        ViewForm::Waves
            | ViewForm::DotRun
            | ViewForm::ListOf(_)
            | ViewForm::Capture(CaptureView::Dot, _)
    )
}

/// What is said on standard error of a log whose text begins so, where it has no event.
fn put_no_event(rt: &HostRuntime, front: &[u8]) {
    if begins_capture(front) {
        let mut errors = WriteSink::new(rt.stderr());
        let _ = write_whole(&mut errors, other_hint(front));
    } else {
        let _ = eprintln!(rt; "{}", why_no_event(front));
    }
}

/// What input looks like that a form refused, where it looks like something else, and what reads it.
fn hint_of(form: &ViewForm, front: &[u8]) -> &'static [u8] {
    match form {
        ViewForm::Capture(CaptureView::Tree | CaptureView::Dot | CaptureView::Json, _) => {
            hint_text(likeness_of(front))
        }
        ViewForm::Trace
        | ViewForm::Waves
        | ViewForm::DotRun
        | ViewForm::JsonRun
        | ViewForm::Explain(_)
        | ViewForm::ListOf(_) => other_hint(front),
        ViewForm::Nosy(_) if begins_capture(front) => other_hint(front),
        _ => b"",
    }
}

/// How many lines a text has.
fn lines_of(text: &[u8]) -> usize {
    let ended = text.iter().filter(|byte| **byte == b'\n').count();
    match text.last() {
        None | Some(b'\n') => ended,
        Some(_) => ended.saturating_add(1),
    }
}

/// The number of the line that a script's refusal names, and the kind of its fault.
fn refused_line(refusal: &[u8]) -> Option<(u32, &[u8])> {
    let mut words = refusal
        .strip_prefix(b"refused line ")?
        .split(|byte| matches!(*byte, b' ' | b'\n'));
    let number = number_of(words.next()?)?;
    Some((number, words.next()?))
}

/// Says on standard error that the node that a call names is at fault, and not a line of the script: the refusal names
/// the line after the script's last one. That is known only of a script that is kept whole.
fn say_node(rt: &HostRuntime, name: &Name, script: &[u8], refusal: &[u8]) {
    let Some((line, kind)) = refused_line(refusal) else {
        return;
    };
    if script.len() >= KEPT || line as usize != lines_of(script).saturating_add(1) {
        return;
    }
    let name = str::from_utf8(name.as_bytes()).unwrap_or("");
    let _ = match kind {
        b"NoNode" => eprintln!(rt; "busview: capture: the script has no node {name}"),
        _ => eprintln!(rt;
            "busview: capture: the bus of {name} is no tree at the end of the script"
        ),
    };
}

/// Says on standard error what input looks like that was refused, with the refusal where another program reads
/// standard output; and why a log has no event, and a dump no reset. The input and the output began so.
pub(crate) fn say_hints(
    rt: &HostRuntime,
    form: &ViewForm,
    status: u8,
    input: &[u8],
    output: &[u8],
) {
    let mut errors = WriteSink::new(rt.stderr());
    if status == REFUSED && is_piped(form) {
        let _ = write_whole(&mut errors, output);
    }
    if status == REFUSED {
        let _ = write_whole(&mut errors, hint_of(form, input));
        if let ViewForm::ListOf(name) = form {
            say_node(rt, name, input, output);
        }
    }
    if has_no_event(form, output) {
        put_no_event(rt, input);
    }
    if has_no_reset(form, output) {
        let _ = eprintln!(rt; "{}", why_no_reset(input));
    }
}

/// Says on standard error why of an input nothing was written, or not all.
pub(crate) fn explain(rt: &HostRuntime, form: &ViewForm, status: u8, name: &str) {
    let most = match form {
        ViewForm::Resets(_) | ViewForm::Nosy(_) => 9_223_372_036_854_775_807,
        _ => MAX_INPUT as u64,
    };
    let name = Shown::new(name);
    let _ = match status {
        READ_FAULT => eprintln!(rt; "busview: reading {name} failed"),
        WRITE_FAULT => eprintln!(rt; "busview: writing standard output failed"),
        NO_MEMORY => eprintln!(rt; "busview: out of memory"),
        TOO_LONG => eprintln!(rt; "busview: {name} has more than {most} bytes"),
        _ => Ok(()),
    };
}
