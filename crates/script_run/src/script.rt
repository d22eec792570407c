//! The lines of a script, which are taken one after the other.
ghost use Rattle.std.specs.Prelude.{◌≡◌, ◌≤◌, ◌<◌, ◌∷◌, [], IfOk, IfErr, length};
ghost use Rattle.script_told.specs.Script.{script_lines};
ghost use Rattle.script_run.specs.Answered.{IsRefused};
ghost use Rattle.script_run.specs.codings.Going.{HaveGone, stop_at};

use crate::reading::Reading;
use crate::stage::Stage;
use script_lines::{LineStop, ScriptFault, ScriptStop};
use script_text::first_feed;
use std::alloc::Global;

/// The first line of what is left of a script, without its line feed, and what stands behind it.
pub(crate) fn cut_line(rest: &[u8]) -> (&[u8], &[u8])
    requires { 0 < length rest.now }
    ensures lines { script_lines rest.now ≡ result.0.now ∷ script_lines result.1.now }
    ensures shorter { length result.1.now < length rest.now }
{
    match first_feed(rest) {
        Some(end) => (&rest[..end], &rest[end + 1..]),
        None => (rest, &[]),
    }
}

/// The stop of a script at a line.
pub(crate) fn at_line(line: u32, stop: LineStop) -> ScriptStop
    ensures { result ≡ stop_at line stop }
{
    match stop {
        LineStop::Fault(kind) => ScriptStop::Fault(ScriptFault { line, kind }),
        LineStop::Memory(error) => ScriptStop::Memory(error),
    }
}

/// A script whose lines were taken.
#[derive(Drop)]
pub(crate) struct Taken {
    /// What comes of it.
    pub stage: Stage,
    /// The number of lines and 1.
    pub number: u32,
    /// What was written of the lines.
    pub text: Vec<u8>,
}

/// Takes the lines of a script, of 1,048,576 bytes at most. What happens at them is heard by who has
/// heard nothing yet.
pub(crate) fn take_lines<R: Reading>(
    alloc: Global,
    bytes: &[u8],
    heard: &mut R::Hears,
) -> Result<Taken, ScriptStop>
    requires few { length bytes.now ≤ 1048576 }
    requires none { R.Hears.written heard.old ≡ [] }
    ensures lines { IfOk result (λ taken. HaveGone R.Hears.voice R.Writes.writes bytes.now
        taken.text.items (R.Hears.written heard.new) taken.number [] taken.stage) }
    ensures refused { IfErr result (IsRefused bytes.now) }
{
    let mut text = Vec::new(alloc);
    let mut stage = Stage::new();
    let mut rest = bytes;
    let mut number = 1;
    while !rest.is_empty() {
        let (line, behind) = cut_line(rest);
        match stage.take::<R>(alloc, line, heard, &mut text) {
            Ok(()) => {}
            Err(stop) => return Err(at_line(number, stop)),
        }
        rest = behind;
        number += 1;
    }
    Ok(Taken {
        stage,
        number,
        text,
    })
}
