//! The lines that change the bus or let turns pass.
ghost use Rattle.std.specs.Prelude.{◌≡◌, codes, [], ◌∷◌, IfOk};
ghost use Rattle.port_state.specs.declared.ranges.TimeRanges.{TimeRanges};
ghost use Rattle.script_lines.specs.Form.{pull, plug, reset, turn, hold, settle, delay, times_2000, times_1995, clock_paced, clock_first};
ghost use Rattle.script_lines.specs.Range.{IsInRange};
ghost use Rattle.script_lines.specs.codings.Reading.{read_by};

use crate::command::Command;
use crate::kind::Kind;
use crate::word::Word;
use self_id::Standard;

/// `plug NAME PORT NAME PORT`
pub(crate) fn plug(args: &[Word]) -> Result<Command, Kind>
    ensures value { result ≡ read_by (plug ∷ []) (codes "plug" ∷ args.now) }
    ensures ranged { (times : TimeRanges) → IfOk result (IsInRange times) }
{
    match args {
        [a, a_port, b, b_port] => Ok(Command::Plug {
            a: a.name()?,
            a_port: a_port.any_number()?,
            b: b.name()?,
            b_port: b_port.any_number()?,
        }),
        _ => Err(Kind::Word),
    }
}

/// `pull NAME PORT`
pub(crate) fn pull(args: &[Word]) -> Result<Command, Kind>
    ensures value { result ≡ read_by (pull ∷ []) (codes "pull" ∷ args.now) }
    ensures ranged { (times : TimeRanges) → IfOk result (IsInRange times) }
{
    match args {
        [name, port] => Ok(Command::Pull {
            name: name.name()?,
            port: port.any_number()?,
        }),
        _ => Err(Kind::Word),
    }
}

/// `reset NAME`
pub(crate) fn reset(args: &[Word]) -> Result<Command, Kind>
    ensures value { result ≡ read_by (reset ∷ []) (codes "reset" ∷ args.now) }
    ensures ranged { (times : TimeRanges) → IfOk result (IsInRange times) }
{
    match args {
        [name] => Ok(Command::Reset { name: name.name()? }),
        _ => Err(Kind::Word),
    }
}

/// `turn K`
pub(crate) fn turn(args: &[Word]) -> Result<Command, Kind>
    ensures value { result ≡ read_by (turn ∷ []) (codes "turn" ∷ args.now) }
    ensures ranged { (times : TimeRanges) → IfOk result (IsInRange times) }
{
    match args {
        [count] => Ok(Command::Turn {
            count: count.number(1, 2_000_000)?,
        }),
        _ => Err(Kind::Word),
    }
}

/// `hold NAME PORT K`
pub(crate) fn hold(args: &[Word]) -> Result<Command, Kind>
    ensures value { result ≡ read_by (hold ∷ []) (codes "hold" ∷ args.now) }
    ensures ranged { (times : TimeRanges) → IfOk result (IsInRange times) }
{
    match args {
        [name, port, turns] => Ok(Command::Hold {
            name: name.name()?,
            port: port.any_number()?,
            turns: turns.number(1, 65_535)? as u16,
        }),
        _ => Err(Kind::Word),
    }
}

/// `settle`
pub(crate) fn settle(args: &[Word]) -> Result<Command, Kind>
    ensures value { result ≡ read_by (settle ∷ []) (codes "settle" ∷ args.now) }
    ensures ranged { (times : TimeRanges) → IfOk result (IsInRange times) }
{
    match args {
        [] => Ok(Command::Settle),
        _ => Err(Kind::Word),
    }
}

/// `delay D`
pub(crate) fn delay(args: &[Word]) -> Result<Command, Kind>
    ensures value { result ≡ read_by (delay ∷ []) (codes "delay" ∷ args.now) }
    ensures ranged { (times : TimeRanges) → IfOk result (IsInRange times) }
{
    match args {
        [delay] => Ok(Command::Delay {
            delay: delay.number(1, 16)? as u8,
        }),
        _ => Err(Kind::Word),
    }
}

/// `times STANDARD NANOSECONDS`
pub(crate) fn times(args: &[Word]) -> Result<Command, Kind>
    ensures value { result
        ≡ read_by (times_2000 ∷ times_1995 ∷ []) (codes "times" ∷ args.now) }
    ensures ranged { (times : TimeRanges) → IfOk result (IsInRange times) }
{
    match args {
        [standard, nanoseconds] if standard.is(b"1394a") => Ok(Command::Times {
            standard: Standard::Ieee2000,
            nanoseconds: nanoseconds.number(1, u32::MAX)?,
        }),
        [standard, nanoseconds] if standard.is(b"1394-1995") => Ok(Command::Times {
            standard: Standard::Ieee1995,
            nanoseconds: nanoseconds.number(1, u32::MAX)?,
        }),
        _ => Err(Kind::Word),
    }
}

/// `clock NAME PPM`, or `clock NAME PPM TURN`
pub(crate) fn clock(args: &[Word]) -> Result<Command, Kind>
    ensures value { result
        ≡ read_by (clock_paced ∷ clock_first ∷ []) (codes "clock" ∷ args.now) }
    ensures ranged { (times : TimeRanges) → IfOk result (IsInRange times) }
{
    match args {
        [name, ppm] => Ok(Command::Clock {
            name: name.name()?,
            ppm: ppm.number(1, 1_000_000)?,
            first: None,
        }),
        [name, ppm, first] => Ok(Command::Clock {
            name: name.name()?,
            ppm: ppm.number(1, 1_000_000)?,
            first: Some(first.number(1, 2_000_000)?),
        }),
        _ => Err(Kind::Word),
    }
}
