//! The lines of each command but `node`.
ghost use Rattle.std.specs.Prelude.{◌≡◌, codes, ◌∷◌, IfOk};
ghost use Rattle.port_state.specs.declared.ranges.TimeRanges.{TimeRanges};
ghost use Rattle.script_lines.specs.Form.{forms};
ghost use Rattle.script_lines.specs.Range.{IsInRange};
ghost use Rattle.script_lines.specs.codings.Reading.{read_by};

use crate::acts::{clock, delay, hold, plug, pull, reset, settle, times, turn};
use crate::asks::{allocate, config, csr, look, manager, maps, plan, release};
use crate::command::Command;
use crate::kind::Kind;
use crate::word::Word;

/// The command of a line with these words, of which the first isn't `node`.
#[inline(never)]
pub(crate) fn read_fixed(verb: &Word, args: &[Word]) -> Result<Command, Kind>
    ensures value { result ≡ read_by forms (verb.now ∷ args.now) }
    ensures ranged { (times : TimeRanges) → IfOk result (IsInRange times) }
{
    if verb.is(b"plug") {
        return plug(args);
    }
    if verb.is(b"pull") {
        return pull(args);
    }
    if verb.is(b"reset") {
        return reset(args);
    }
    if verb.is(b"turn") {
        return turn(args);
    }
    if verb.is(b"hold") {
        return hold(args);
    }
    if verb.is(b"settle") {
        return settle(args);
    }
    if verb.is(b"config") {
        return config(args);
    }
    if verb.is(b"csr") {
        return csr(args);
    }
    if verb.is(b"look") {
        return look(args);
    }
    if verb.is(b"allocate") {
        return allocate(args);
    }
    if verb.is(b"release") {
        return release(args);
    }
    if verb.is(b"manager") {
        return manager(args);
    }
    if verb.is(b"plan") {
        return plan(args);
    }
    if verb.is(b"maps") {
        return maps(args);
    }
    if verb.is(b"delay") {
        return delay(args);
    }
    if verb.is(b"times") {
        return times(args);
    }
    if verb.is(b"clock") {
        return clock(args);
    }
    Err(Kind::Word)
}
