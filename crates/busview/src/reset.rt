//! The form `import --reset=K`.
ghost use Rattle.std.specs.Prelude.{◌<◌};

use bus_cli::NO_FORM;
use io_edges::{ReadSource, WriteSink};
use log_import::{Outcome, Place, reset_status, show_reset};
use log_line::DEVICES;
use program_edges::{PipeWriter, Shown};
use reset_list::LogStop;
use std::fmt::{self, Display, Formatter};
use std::io::{Read, Write};

/// A card as `resets` names it: by its number, or by its device.
#[derive(Clone, Copy, Debug)]
struct Card {
    number: u64,
}

impl Display for Card {
    fn fmt<W: fmt::Write>(&self, f: &mut Formatter<W>) -> fmt::Result {
        match self.number.checked_sub(DEVICES) {
            None => write!(f, "{}", self.number),
            Some(place) => {
                let (domain, bus) = (place / 0x100_0000, place / 0x1_0000 % 0x100);
                let (slot, function) = (place / 0x100 % 0x100, place % 0x100);
                write!(f, "{domain:04x}:{bus:02x}:{slot:02x}.{function:x}")
            }
        }
    }
}

/// Says which reset was taken, or why none was.
fn say(rt: &HostRuntime, wanted: u64, outcome: Outcome) {
    let _ = match outcome {
        Outcome::Written(Place { line, card }) => {
            let card = Card { number: card };
            eprintln!(rt; "busview: import: reset {wanted} of a log, line {line}, card {card}")
        }
        Outcome::TooFew(found) => eprintln!(rt;
            "refused reset {wanted} TooFew found {found}\nbusview: import: the log has fewer resets"
        ),
        Outcome::IsError(Place { line, card }) => {
            let card = Card { number: card };
            eprintln!(rt;
                "refused line {line} IsError\nbusview: import: the controller of card {card} says that it failed at reset {wanted}"
            )
        }
        Outcome::PacketsMissing(Place { line, card }, count) => {
            let card = Card { number: card };
            eprintln!(rt;
                "refused line {line} PacketsMissing {count}\nbusview: import: the log lacks packets of reset {wanted}, at card {card}"
            )
        }
    };
}

/// Writes the capture of a reset of a log, and says on standard error which one was taken, or why none was.
fn reset_into<R: Read + Drop, W: Write>(
    rt: &HostRuntime,
    wanted: u64,
    input: R,
    output: &mut W,
) -> Result<Outcome, LogStop>
    requires { 0 < wanted }
{
    let mut source = ReadSource::new(input);
    let mut sink = WriteSink::new(output);
    let shown = show_reset(rt.alloc(), wanted, &mut source, &mut sink);
    if let Ok(outcome) = shown {
        say(rt, wanted, outcome);
    }
    shown
}

/// Says on standard error why of the log of this name nothing was written, or not all.
fn explain(rt: &HostRuntime, name: &str, stop: LogStop) {
    let name = Shown::new(name);
    let _ = match stop {
        LogStop::ReadFault => eprintln!(rt; "busview: reading {name} failed"),
        LogStop::TooLong => eprintln!(rt; "busview: {name} has more than 1073741824 bytes"),
        LogStop::WriteFault => eprintln!(rt; "busview: writing standard output failed"),
        LogStop::Memory(_) => eprintln!(rt; "busview: out of memory"),
    };
}

/// Writes the capture of the reset with this number in a log, which messages call by this name, and answers the status.
/// A standard error that can't be written changes no status.
pub(crate) fn reset<R: Read + Drop>(rt: &HostRuntime, wanted: u64, name: &str, input: R) -> u8 {
    // No words ask for less.
    if wanted == 0 {
        return NO_FORM;
    }
    let mut output = PipeWriter::new(rt.stdout());
    let shown = reset_into(rt, wanted, input, &mut output);
    if let Err(stop) = shown {
        if !output.is_broken() {
            explain(rt, name, stop);
        }
    }
    reset_status(shown)
}
