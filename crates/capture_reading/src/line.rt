//! The line of a fault.
ghost use Rattle.std.specs.Prelude.{◌≡◌, ◌+◌, ◌≤◌, ◌++◌, length};
ghost use Rattle.capture_reading.specs.Line.{counts_words, fault_line};

use crate::fault::CaptureFault;
use crate::refusal::{Counts, refusal_of};
use crate::text::ShortText;

/// Appends ` found F wanted W`, or nothing.
fn put_counts(line: &mut ShortText, counts: Option<Counts>)
    requires { length line.old + 60 ≤ 256 }
    ensures counts { line.new ≡ line.old ++ counts_words counts }
    ensures few { length line.new ≤ length line.old + 60 }
{
    if let Some(Counts { found, wanted }) = counts {
        line.put(b" found ");
        line.put_number(usize::from(found));
        line.put(b" wanted ");
        line.put_number(usize::from(wanted));
    }
}

/// The line of a capture's fault: `refused pair P KIND`, and behind some kinds ` found F wanted W`.
#[tactic(auto, unfolding(crate::specs::Line::fault_line))]
pub fn fault_line(fault: CaptureFault) -> ShortText
    ensures { result ≡ fault_line fault }
{
    let refusal = refusal_of(fault);
    let mut line = ShortText::new();
    line.put(b"refused pair ");
    line.put_number(refusal.pair);
    line.put(b" ");
    line.put(refusal.kind.as_bytes());
    put_counts(&mut line, refusal.counts);
    line.put(b"\n");
    line
}
