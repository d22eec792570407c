//! What is wrong with a line of a script.
ghost use Rattle.std.specs.Prelude.{◌≡◌};

use cable_world::ActStop;
use cabling::CableFault;
use std::alloc::{AllocError, AllocFailed};
use thiserror::Error;
use topology_stack::OutOfMemory;

/// The kinds of faults of a script.
#[derive(Clone, Copy, Debug, PartialEq, Eq)]
pub enum Kind {
    /// The line has a byte that isn't permitted, or its words are none of the forms.
    Word,
    /// A word stands for a number, or for coins, and doesn't have its form.
    Number,
    /// A word stands for a name and isn't one.
    Name,
    /// A key stands twice in the line, or coins and a seed stand in it, or the name is declared, or the
    /// node's clock is slow already.
    Twice,
    /// The command comes too late in the script.
    Late,
    /// It is the 64th node.
    TooManyNodes,
    /// No node has this name.
    NoNode,
    /// The node has no such port.
    NoPort,
    /// A cable is in the port.
    InUse,
    /// Both ends are at one node.
    SameNode,
    /// No cable is in the port.
    NotPlugged,
    /// A number isn't in its range.
    Range,
    /// The node's part of the bus isn't a settled tree, or hasn't been reported as one.
    NotSettled,
    /// The tree has no isochronous resource manager.
    NoManager,
    /// The node isn't the bus manager of its tree.
    NotManager,
    /// The turns pass the script's limit.
    TooManyTurns,
    /// It is the 101st `maps`.
    TooManyMaps,
}

/// The fault of a script.
#[derive(Clone, Copy, Debug, PartialEq, Eq)]
pub struct ScriptFault {
    /// The line, from 1. A fault at the end of the script has the number of lines and 1.
    pub line: u32,
    /// What is wrong.
    pub kind: Kind,
}

/// Why a script has no text.
#[derive(Debug, Drop, Error)]
pub enum ScriptStop {
    /// This is the fault of its first bad line.
    #[error("refused: {0:?}")]
    Fault(ScriptFault),
    /// There was no memory.
    #[error("out of memory")]
    Memory(OutOfMemory),
}

impl From<AllocError> for ScriptStop {
    ghost use Rattle.script_lines.specs.declared.kind.ScriptStop.TheVariants.{Memory};

    ghost from_gives = { λ x e. e ≡ Memory x };

    fn from(error: AllocError) -> ScriptStop {
        ScriptStop::Memory(error)
    }
}

/// Why `parse_line` answers no command.
#[derive(Debug, Drop, Error)]
pub enum LineStop {
    /// The line is at fault. The kind is `Word`, `Number`, `Name`, `Twice` or `Range`.
    #[error("refused: {0:?}")]
    Fault(Kind),
    /// There was no memory.
    #[error("out of memory")]
    Memory(OutOfMemory),
}

impl From<AllocError> for LineStop {
    ghost use Rattle.script_lines.specs.declared.kind.LineStop.TheVariants.{Memory};

    ghost from_gives = { λ x e. e ≡ Memory x };

    fn from(e: AllocError) -> LineStop {
        LineStop::Memory(e)
    }
}

impl<T: Drop> From<AllocFailed<T>> for LineStop {
    ghost use Rattle.std.specs.Prelude.{alloc_error};
    ghost use Rattle.script_lines.specs.declared.kind.LineStop.TheVariants.{Memory};

    ghost from_gives = { λ _ e. e ≡ Memory alloc_error };

    fn from(e: AllocFailed<T>) -> LineStop {
        LineStop::Memory(AllocError::from(e))
    }
}

impl From<Kind> for LineStop {
    ghost use Rattle.script_lines.specs.declared.kind.LineStop.TheVariants.{Fault};

    ghost from_gives = { λ kind e. e ≡ Fault kind };

    fn from(kind: Kind) -> LineStop {
        LineStop::Fault(kind)
    }
}

impl From<ActStop> for LineStop {
    ghost use Rattle.script_lines.specs.codings.Stop.{of_act};

    ghost from_gives = { λ stop e. e ≡ of_act stop };

    fn from(stop: ActStop) -> LineStop {
        match stop {
            ActStop::Fault(fault) => LineStop::Fault(fault.into()),
            ActStop::Memory(error) => LineStop::Memory(error),
        }
    }
}

impl From<CableFault> for Kind {
    ghost use Rattle.script_lines.specs.Refusal.{kind_of};

    ghost from_gives = { λ fault kind. kind ≡ kind_of fault };

    fn from(fault: CableFault) -> Kind {
        match fault {
            CableFault::NoNode { .. } => Kind::NoNode,
            CableFault::NoPort { .. } => Kind::NoPort,
            CableFault::InUse { .. } => Kind::InUse,
            CableFault::SameNode { .. } => Kind::SameNode,
            CableFault::NotPlugged { .. } => Kind::NotPlugged,
        }
    }
}
