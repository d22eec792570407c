//! Why a capture is refused.

ghost use Rattle.std.specs.Prelude.{◌≡◌};

use quad_lanes::{OutOfMemory, PairFault};
use topology_stack::{TreeFault, TreeStop};

/// Why a capture spells no bus tree. `pair` counts pairs of quadlets from 0, and so does a place in
/// the fault of a list, which has one quadlet of each pair.
#[derive(Clone, Copy, Debug, PartialEq, Eq)]
pub enum CaptureFault {
    /// The bytes end within a pair: within this one.
    BadLength { pair: usize },
    /// The second quadlet of this pair, and of none before it, isn't the inverse of the first.
    BadInverse { pair: usize },
    /// No bus tree emits the first quadlets of the pairs.
    Tree(TreeFault),
}

/// Why a capture gives no tree.
#[derive(Debug, Drop)]
pub enum CaptureStop {
    /// The capture spells none.
    Fault(CaptureFault),
    /// There was no memory.
    Memory(OutOfMemory),
}

impl From<PairFault> for CaptureStop {
    ghost use Rattle.capture_reading.specs.Stop.{of_pairs};

    ghost from_gives = { λ fault stop. stop ≡ of_pairs fault };

    fn from(fault: PairFault) -> CaptureStop {
        match fault {
            PairFault::Length { whole_pairs } => {
                CaptureStop::Fault(CaptureFault::BadLength { pair: whole_pairs })
            }
            PairFault::Memory(error) => CaptureStop::Memory(error),
        }
    }
}

impl From<TreeStop> for CaptureStop {
    ghost use Rattle.capture_reading.specs.Stop.{of_tree};

    ghost from_gives = { λ fault stop. stop ≡ of_tree fault };

    fn from(stop: TreeStop) -> CaptureStop {
        match stop {
            TreeStop::Fault(fault) => CaptureStop::Fault(CaptureFault::Tree(fault)),
            TreeStop::Memory(error) => CaptureStop::Memory(error),
        }
    }
}

impl From<OutOfMemory> for CaptureStop {
    ghost use Rattle.capture_reading.specs.declared.fault.CaptureStop.TheVariants.{Memory};

    ghost from_gives = { λ error stop. stop ≡ Memory error };

    fn from(error: OutOfMemory) -> CaptureStop {
        CaptureStop::Memory(error)
    }
}
