//! What is said of bytes that look like something else than a capture.
ghost use Rattle.std.specs.Prelude.{◌≡◌, ◌++◌, OnOk};
ghost use Rattle.capture_hint.specs.Hint.{hint_text, is_of_any, other_hint, hint};

use crate::likeness::{Likeness, begins_capture, likeness_of};
use quad_lanes::OutOfMemory;

/// What is said of such bytes, in one line, or nothing.
pub fn hint_text(likeness: Option<Likeness>) -> &'static [u8]
    ensures { result.now ≡ hint_text likeness }
{
    match likeness {
        None => b"",
        Some(Likeness::Compressed) => {
            b"This looks like a file that gzip packed. Unpacked: gzip -d\n"
        }
        Some(Likeness::Utf16) => {
            b"This looks like text of two bytes a character. As plain text: iconv -f UTF-16 -t UTF-8\n"
        }
        Some(Likeness::Marked) => {
            b"This begins with the mark of three bytes that some editors write. Without it: tail -c +4\n"
        }
        Some(Likeness::Dump) => {
            b"This looks like a dump of bytes with offsets. Its tree: busview import FILE | busview tree\n"
        }
        Some(Likeness::Digits) => {
            b"This looks like digits of quadlets. Its tree: busview import FILE | busview tree\n"
        }
        Some(Likeness::NumberList) => {
            b"This looks like a list of numbers in braces. Its tree: busview import FILE | busview tree\n"
        }
        Some(Likeness::Trace) => {
            b"This looks like a trace or a log of the Linux kernel. It is read by: busview resets\n"
        }
        Some(Likeness::Script) => {
            b"This looks like a script. A capture of it: busview capture NAME\n"
        }
        Some(Likeness::Rom) => {
            b"This looks like a configuration ROM, which isn't a capture. It is read by: busconf rom\n"
        }
        Some(Likeness::TurnedRom) => {
            b"This looks like a configuration ROM with the bytes of its quadlets turned round.\n"
        }
        Some(Likeness::Turned) => {
            b"This looks like a capture with the bytes of its quadlets turned round. Its tree: busview import FILE | busview tree\n"
        }
        Some(Likeness::Halves) => {
            b"This looks like a capture with the halves of its quadlets swapped. Its tree: busview import FILE | busview tree\n"
        }
        Some(Likeness::Buffer) => {
            b"This looks like the self-ID buffer of an OHCI controller. Its tree: busview import FILE | busview tree\n"
        }
        Some(Likeness::TopologyMap) => {
            b"This looks like a topology map. Its tree: busview import FILE | busview tree\n"
        }
        Some(Likeness::Recording) => {
            b"This looks like a recording by nosy-dump. It is read by: busview nosy\n"
        }
        Some(Likeness::FirstQuadlets) => {
            b"This looks like first quadlets without their inverses. Its tree: busview import FILE | busview tree\n"
        }
        Some(Likeness::LineFeed) => {
            b"This looks like a capture with a line feed behind it. Its tree: busview import FILE | busview tree\n"
        }
    }
}

/// Whether it is said of bytes where a script or a log is read, and not a capture.
fn is_of_any(likeness: Option<Likeness>) -> bool
    ensures { result ≡ is_of_any likeness }
{
    matches!(
        likeness,
        Some(
            Likeness::Compressed
                | Likeness::Utf16
                | Likeness::Marked
                | Likeness::Rom
                | Likeness::Trace
                | Likeness::Recording
        )
    )
}

/// What bytes look like that are refused as a script or a log, and what reads them, in one line; or
/// nothing. It takes no memory.
pub fn other_hint(bytes: &[u8]) -> &'static [u8]
    ensures { result.now ≡ other_hint bytes.now }
{
    if begins_capture(bytes) {
        return b"This looks like a capture. It is read by: busconf read\n";
    }
    let likeness = likeness_of(bytes);
    if is_of_any(likeness) {
        hint_text(likeness)
    } else {
        b""
    }
}

/// Appends what bytes look like that are refused as a capture, and what reads them, in one line; or nothing
/// where they look like nothing else.
pub fn put_hint(out: &mut Vec<u8>, bytes: &[u8]) -> Result<(), OutOfMemory>
    ensures { OnOk result (out.new.items ≡ out.old.items ++ hint bytes.now) }
{
    out.extend_from_slice(hint_text(likeness_of(bytes)))
}
