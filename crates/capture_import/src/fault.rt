//! Why an input names no list of packets.
ghost use Rattle.std.specs.Prelude.{◌≡◌};

use topology_stack::OutOfMemory;

/// What is wrong with an input.
#[derive(Clone, Copy, Debug, PartialEq, Eq)]
pub enum FaultKind {
    /// A word isn't hexadecimal digits of whole bytes, nor ten decimal digits of a quadlet.
    BadWord,
    /// A second list follows in braces.
    SecondList,
    /// There is no quadlet.
    Empty,
    /// The bytes end within a quadlet.
    BadLength,
    /// A quadlet isn't the inverse of the one before it.
    BadInverse,
    /// A quadlet is no self-ID packet, in whichever order its bytes are read.
    NotSelfId,
    /// The CRC of a topology map isn't that of its quadlets.
    BadCrc,
    /// The counts of a topology map aren't those of its list.
    BadCounts,
}

/// What is wrong with an input, and where: at this quadlet, counted from 0.
#[derive(Clone, Copy, Debug, PartialEq, Eq)]
pub struct ImportFault {
    pub quadlet: usize,
    pub kind: FaultKind,
}

/// Why there is no list.
#[derive(Debug, Drop)]
pub(crate) enum ImportStop {
    /// The input names none.
    Fault(ImportFault),
    /// There was no memory.
    Memory(OutOfMemory),
}

impl From<OutOfMemory> for ImportStop {
    ghost use Rattle.capture_import.specs.declared.fault.ImportStop.TheVariants.{Memory};

    ghost from_gives = { λ error stop. stop ≡ Memory error };

    fn from(error: OutOfMemory) -> ImportStop {
        ImportStop::Memory(error)
    }
}

/// The stop of a fault.
pub(crate) fn fault(quadlet: usize, kind: FaultKind) -> ImportStop
    ensures { result ≡ ImportStop.Fault (record { quadlet = quadlet; kind = kind }) }
{
    ImportStop::Fault(ImportFault { quadlet, kind })
}
