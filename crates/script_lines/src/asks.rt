//! The lines that ask the manager of a bus, or change what it keeps.
ghost use Rattle.std.specs.Prelude.{◌≡◌, codes, [], ◌∷◌, IfOk};
ghost use Rattle.port_state.specs.declared.ranges.TimeRanges.{TimeRanges};
ghost use Rattle.script_lines.specs.Form.{config_root, config_gap, config_both, csr_read, csr_write, csr_lock, look, allocate, release, manager, plan, maps};
ghost use Rattle.script_lines.specs.Range.{IsInRange};
ghost use Rattle.script_lines.specs.codings.Reading.{read_by};

use crate::command::Command;
use crate::kind::Kind;
use crate::word::Word;

/// `config NAME ROOT GAP`, where one of the two may be `-`.
pub(crate) fn config(args: &[Word]) -> Result<Command, Kind>
    ensures value { result ≡ read_by (config_root ∷ config_gap ∷ config_both ∷ [])
        (codes "config" ∷ args.now) }
    ensures ranged { (times : TimeRanges) → IfOk result (IsInRange times) }
{
    match args {
        [name, root, gap] if root.is(b"-") && gap.is(b"-") => Err(Kind::Word),
        [name, root, gap] if gap.is(b"-") => Ok(Command::Config {
            name: name.name()?,
            root_id: Some(root.number(0, 62)? as u8),
            gap: None,
        }),
        [name, root, gap] if root.is(b"-") => Ok(Command::Config {
            name: name.name()?,
            root_id: None,
            gap: Some(gap.number(0, 63)? as u8),
        }),
        [name, root, gap] => Ok(Command::Config {
            name: name.name()?,
            root_id: Some(root.number(0, 62)? as u8),
            gap: Some(gap.number(0, 63)? as u8),
        }),
        _ => Err(Kind::Word),
    }
}

/// `csr NAME read OFFSET`, `csr NAME write OFFSET VALUE` or `csr NAME lock OFFSET KIND ARG VALUE`
pub(crate) fn csr(args: &[Word]) -> Result<Command, Kind>
    ensures value { result ≡ read_by (csr_read ∷ csr_write ∷ csr_lock ∷ []) (codes "csr" ∷ args.now) }
    ensures ranged { (times : TimeRanges) → IfOk result (IsInRange times) }
{
    match args {
        [name, access, offset] if access.is(b"read") => Ok(Command::CsrRead {
            name: name.name()?,
            offset: offset.any_number()?,
        }),
        [name, access, offset, value] if access.is(b"write") => Ok(Command::CsrWrite {
            name: name.name()?,
            offset: offset.any_number()?,
            value: value.any_number()?,
        }),
        [name, access, offset, kind, arg, value] if access.is(b"lock") => Ok(Command::CsrLock {
            name: name.name()?,
            offset: offset.any_number()?,
            kind: kind.number(0, 255)? as u8,
            arg: arg.any_number()?,
            value: value.any_number()?,
        }),
        _ => Err(Kind::Word),
    }
}

/// `look NAME`
pub(crate) fn look(args: &[Word]) -> Result<Command, Kind>
    ensures value { result ≡ read_by (look ∷ []) (codes "look" ∷ args.now) }
    ensures ranged { (times : TimeRanges) → IfOk result (IsInRange times) }
{
    match args {
        [name] => Ok(Command::Look { name: name.name()? }),
        _ => Err(Kind::Word),
    }
}

/// `allocate NAME CHANNEL UNITS`
pub(crate) fn allocate(args: &[Word]) -> Result<Command, Kind>
    ensures value { result ≡ read_by (allocate ∷ []) (codes "allocate" ∷ args.now) }
    ensures ranged { (times : TimeRanges) → IfOk result (IsInRange times) }
{
    match args {
        [name, channel, units] => Ok(Command::Allocate {
            name: name.name()?,
            channel: channel.number(0, 63)? as u8,
            units: units.number(0, 4915)? as u16,
        }),
        _ => Err(Kind::Word),
    }
}

/// `release NAME CHANNEL UNITS`
pub(crate) fn release(args: &[Word]) -> Result<Command, Kind>
    ensures value { result ≡ read_by (release ∷ []) (codes "release" ∷ args.now) }
    ensures ranged { (times : TimeRanges) → IfOk result (IsInRange times) }
{
    match args {
        [name, channel, units] => Ok(Command::Release {
            name: name.name()?,
            channel: channel.number(0, 63)? as u8,
            units: units.number(0, 4915)? as u16,
        }),
        _ => Err(Kind::Word),
    }
}

/// `manager NAME`
pub(crate) fn manager(args: &[Word]) -> Result<Command, Kind>
    ensures value { result ≡ read_by (manager ∷ []) (codes "manager" ∷ args.now) }
    ensures ranged { (times : TimeRanges) → IfOk result (IsInRange times) }
{
    match args {
        [name] => Ok(Command::Manager { name: name.name()? }),
        _ => Err(Kind::Word),
    }
}

/// `plan NAME`
pub(crate) fn plan(args: &[Word]) -> Result<Command, Kind>
    ensures value { result ≡ read_by (plan ∷ []) (codes "plan" ∷ args.now) }
    ensures ranged { (times : TimeRanges) → IfOk result (IsInRange times) }
{
    match args {
        [name] => Ok(Command::Plan { name: name.name()? }),
        _ => Err(Kind::Word),
    }
}

/// `maps NAME`
pub(crate) fn maps(args: &[Word]) -> Result<Command, Kind>
    ensures value { result ≡ read_by (maps ∷ []) (codes "maps" ∷ args.now) }
    ensures ranged { (times : TimeRanges) → IfOk result (IsInRange times) }
{
    match args {
        [name] => Ok(Command::Maps { name: name.name()? }),
        _ => Err(Kind::Word),
    }
}
