//! The fault of a script as a record.
ghost use Rattle.std.specs.Prelude.{◌≡◌};
ghost use Rattle.script_c.specs.Faults.{kind_number, fault_record, kind_in, fault_in, IsStopped, ScriptFaultsAreReadBack};

use crate::record::ScriptFaultRecord;
use c_border::{NO_MEMORY, REFUSED};
use script_lines::{Kind, ScriptFault, ScriptStop};

/// The number of a kind.
fn kind_number(kind: Kind) -> u8
    ensures { result ≡ kind_number kind }
{
    match kind {
        Kind::Word => 1,
        Kind::Number => 2,
        Kind::Name => 3,
        Kind::Twice => 4,
        Kind::Late => 5,
        Kind::TooManyNodes => 6,
        Kind::NoNode => 7,
        Kind::NoPort => 8,
        Kind::InUse => 9,
        Kind::SameNode => 10,
        Kind::NotPlugged => 11,
        Kind::Range => 12,
        Kind::NotSettled => 13,
        Kind::NoManager => 14,
        Kind::NotManager => 15,
        Kind::TooManyTurns => 16,
        Kind::TooManyMaps => 17,
    }
}

/// The record of a fault.
fn fault_record(fault: ScriptFault) -> ScriptFaultRecord
    ensures { result ≡ fault_record fault }
{
    ScriptFaultRecord {
        line: fault.line,
        kind: kind_number(fault.kind),
    }
}

/// Tells why a script has no text.
pub(crate) fn tell_stop(stop: ScriptStop, fault: &mut ScriptFaultRecord) -> u32
    ensures { IsStopped stop fault.old fault.new result }
{
    match stop {
        ScriptStop::Fault(found) => {
            *fault = fault_record(found);
            REFUSED
        }
        ScriptStop::Memory(_) => NO_MEMORY,
    }
}

/// The kind with a number, 1 to 17.
fn kind_in(number: u8) -> Kind
    ensures { result ≡ kind_in number }
{
    match number {
        1 => Kind::Word,
        2 => Kind::Number,
        3 => Kind::Name,
        4 => Kind::Twice,
        5 => Kind::Late,
        6 => Kind::TooManyNodes,
        7 => Kind::NoNode,
        8 => Kind::NoPort,
        9 => Kind::InUse,
        10 => Kind::SameNode,
        11 => Kind::NotPlugged,
        12 => Kind::Range,
        13 => Kind::NotSettled,
        14 => Kind::NoManager,
        15 => Kind::NotManager,
        16 => Kind::TooManyTurns,
        _ => Kind::TooManyMaps,
    }
}

/// The fault that a record tells whose kind is 1 to 17.
pub(crate) fn fault_in(fault: &ScriptFaultRecord) -> ScriptFault
    ensures { result ≡ fault_in fault.now }
{
    let ScriptFaultRecord { line, kind } = *fault;
    ScriptFault {
        line,
        kind: kind_in(kind),
    }
}

/// A law: the fault of a fault's record is that fault.
pub fn script_faults_are_read_back()
    ensures { ScriptFaultsAreReadBack }
{}
