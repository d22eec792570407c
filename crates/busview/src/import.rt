//! The form `import`.

use capture_hint::{Likeness, hint_text, likeness_of};
use capture_import::{
    Container, FaultKind, ImportFault, Layout, Order, Outcome, StreamStop, Taken, TextForm,
    import_status, kind_word, show_import,
};
use io_edges::{ReadSource, WriteSink, write_whole};
use program_edges::{FrontSource, PipeWriter, Shown};
use std::io::{Read, Write};

/// What holds the bytes.
fn container_words(container: Container) -> &'static str {
    match container {
        Container::Bytes => "bytes",
        Container::Text(TextForm::Words) => "words of digits",
        Container::Text(TextForm::Xxd) => "the output of xxd",
        Container::Text(TextForm::Hexdump) => "the output of hexdump -C",
        Container::Text(TextForm::Octal) => "the output of hexdump or od",
        Container::Text(TextForm::Offsets) => "a dump of Wireshark",
    }
}

/// How the packets stand among quadlets.
fn layout_words(layout: Layout) -> &'static str {
    match layout {
        Layout::Pairs => "packets and their inverses",
        Layout::Firsts => "packets without inverses",
        Layout::Buffer => "the self-ID buffer of an OHCI controller",
        Layout::Map => "a topology map",
    }
}

/// The order of the bytes of a quadlet, where it isn't the usual one.
fn order_words(order: Order) -> &'static str {
    match order {
        Order::Big => "",
        Order::Little => ", the lowest byte first",
        Order::Halves => ", halves swapped",
        Order::HalfBytes => ", the bytes of each half swapped",
    }
}

/// What is wrong with an input.
fn fault_words(kind: FaultKind) -> &'static str {
    match kind {
        FaultKind::BadWord => {
            "a word is neither hexadecimal digits of whole bytes nor ten decimal digits of a quadlet"
        }
        FaultKind::SecondList =>
            "a second list follows in braces, so the text may be of two resets",
        FaultKind::Empty => "there is no quadlet",
        FaultKind::BadLength => "the bytes end within a quadlet",
        FaultKind::BadInverse => "this quadlet isn't the inverse of the one before it",
        FaultKind::NotSelfId =>
            "the packets don't begin with the bits 10, in whichever order of bytes",
        FaultKind::BadCrc => "the CRC of this topology map isn't that of its quadlets",
        FaultKind::BadCounts => "the counts of this topology map aren't those of its list",
    }
}

/// Says what the input was taken for.
fn say_taken(rt: &HostRuntime, taken: Taken) {
    let (container, layout, order) = (
        container_words(taken.container),
        layout_words(taken.layout),
        order_words(taken.order),
    );
    let _ = eprintln!(rt; "busview: taken for {container}: {layout}{order}");
}

/// Says why an input that begins so is refused, and what reads it where it looks like something else.
fn say_refused(rt: &HostRuntime, fault: ImportFault, front: &[u8]) {
    let (quadlet, kind, why) = (
        fault.quadlet,
        kind_word(fault.kind),
        fault_words(fault.kind),
    );
    let _ = eprintln!(rt; "refused quadlet {quadlet} {kind}\nbusview: import: {why}");
    let likeness = likeness_of(front);
    if matches!(
        likeness,
        Some(
            Likeness::Compressed
                | Likeness::Utf16
                | Likeness::Trace
                | Likeness::Script
                | Likeness::Rom
                | Likeness::TurnedRom
                | Likeness::Recording
        )
    ) {
        let mut errors = WriteSink::new(rt.stderr());
        let _ = write_whole(&mut errors, hint_text(likeness));
    }
}

/// Writes the capture of an input, and says on standard error what the input was taken for, or why it is refused.
fn import_into<R: Read + Drop, W: Write>(
    rt: &HostRuntime,
    input: R,
    output: &mut W,
) -> Result<Outcome, StreamStop> {
    let mut source = FrontSource::new(rt.alloc(), ReadSource::new(input));
    let mut sink = WriteSink::new(output);
    let shown = show_import(rt.alloc(), &mut source, &mut sink);
    match shown {
        Ok(Outcome::Written(taken)) => say_taken(rt, taken),
        Ok(Outcome::Refused(fault)) => say_refused(rt, fault, source.front()),
        Err(_) => {}
    }
    shown
}

/// Says on standard error why of the input of this name nothing was written, or not all.
fn explain(rt: &HostRuntime, name: &str, stop: StreamStop) {
    let name = Shown::new(name);
    let _ = match stop {
        StreamStop::ReadFault => eprintln!(rt; "busview: reading {name} failed"),
        StreamStop::TooLong => eprintln!(rt; "busview: {name} has more than 1048576 bytes"),
        StreamStop::WriteFault => eprintln!(rt; "busview: writing standard output failed"),
        StreamStop::Memory(_) => eprintln!(rt; "busview: out of memory"),
    };
}

/// Writes the capture of an input, which messages call by this name, and answers the status. A standard error that
/// can't be written changes no status.
pub(crate) fn import<R: Read + Drop>(rt: &HostRuntime, name: &str, input: R) -> u8 {
    let mut output = PipeWriter::new(rt.stdout());
    let shown = import_into(rt, input, &mut output);
    if let Err(stop) = shown {
        if !output.is_broken() {
            explain(rt, name, stop);
        }
    }
    import_status(shown)
}
