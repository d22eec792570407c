//! The ways to read a script, and the one function that reads it in each of them.
ghost use Rattle.std.specs.Prelude.{◌≡◌, ◌≤◌, ◌+◌, ℕ, List, [], false, Ok, Err, IfOk, IfErr, OnOk, IsSomeAnd, length};
ghost use Rattle.settle.specs.Report.{IsReport};
ghost use Rattle.script_lines.specs.declared.kind.ScriptFault.{ScriptFault};
ghost use Rattle.script_told.specs.Script as shown;
ghost use Rattle.script_told.specs.Script.{ScriptResult, fault_at, script_lines};
ghost use Rattle.script_told.specs.Run.{IsResult};
ghost use Rattle.script_bus.specs.Running.{IfFault};
ghost use Rattle.script_run.specs.Answered.{StopsWith, IsOnlyFault};
ghost use Rattle.script_run.specs.Viewed.{Writing};
ghost use Rattle.script_run.specs.codings.Going.{HaveGone, IsAdded, IsRead, Prints};

use crate::script::{Taken, at_line, take_lines};
use crate::stage::Stage;
use script_bus::{Bus, Listener};
use script_lines::{LineStop, ScriptStop};
use std::alloc::Global;
use topology_stack::OutOfMemory;

/// Who hears what happens, from the first command on.
pub(crate) trait Hearer: Listener + Drop {
    /// Nothing was heard.
    fn first(alloc: Global) -> Self
        ensures { Self.written result ≡ [] };
}

/// What is written of each command.
pub(crate) trait Writer {
    // this is written
    ghost writes: { Writing };

    /// Appends what is written of a command that led to a stage and prints these words, and behind them
    /// its report, if it prints one.
    fn write(
        alloc: Global,
        prints: bool,
        stage: &Stage,
        words: Vec<u8>,
        out: &mut Vec<u8>,
    ) -> Result<(), OutOfMemory>
        ensures { OnOk result ((text : List ℕ) → Prints prints stage.now words.items text →
            IsAdded writes prints stage.now text out.old.items out.new.items) };

    // nothing is written of a command that prints nothing
    ghost nothing: { (after : shown.Stage) → writes false after [] [] };
}

/// A way to read a script: who hears what happens, what is written of each command, and what is told
/// of it all and of the bus that is left.
pub(crate) trait Reading: Drop {
    type Hears: Hearer;

    type Writes: Writer;

    /// What is told.
    type Told: Drop;

    // what is told, as a list
    ghost list_of: { Self.Told → List ℕ };

    // this is told of a script
    ghost tells: { Self → List ℕ → ScriptResult → Type 0 };

    // and else a fault that this tells
    ghost refuses: { Self → List ℕ → ScriptResult → Type 0 };

    // what else holds of what is told
    ghost shows: { Self → List ℕ → List ℕ → Type 0 } = { λ _ _ _. Unit {0} };

    /// What is told of a script that was read. A fault has the number of lines and 1.
    fn tell(
        self,
        alloc: Global,
        bus: Bus,
        text: Vec<u8>,
        heard: Self::Hears,
    ) -> Result<Self::Told, LineStop>
        requires { IsSomeAnd bus.notes.report (IsReport bus.world) }
        ensures told { IfOk result (λ told. (bytes : List ℕ) → IsRead Self.Hears.voice
            Self.Writes.writes bytes bus text.items (Self.Hears.written heard) →
            tells self bytes (Ok (list_of told))) }
        ensures shown { IfOk result (λ told. (bytes : List ℕ) → IsRead Self.Hears.voice
            Self.Writes.writes bytes bus text.items (Self.Hears.written heard) →
            shows self bytes (list_of told)) }
        ensures stop { IfErr result (IfFault (λ kind. (bytes : List ℕ) → IsRead Self.Hears.voice
            Self.Writes.writes bytes bus text.items (Self.Hears.written heard) →
            refuses self bytes (Err (fault_at (length (script_lines bytes) + 1) kind)))) };

    /// A law: one thing is told of a script.
    fn one(&self)
        ensures { (bytes : List ℕ) (one other : ScriptResult) →
            tells self.now bytes one → tells self.now bytes other → one ≡ other };

    // a fault of the script is such a fault
    ghost of_script: { (reading : Self) (bytes : List ℕ) (fault : ScriptFault) →
        IsResult bytes (Err fault) → refuses reading bytes (Err fault) };

    // and such a fault is told
    ghost is_told: { (reading : Self) (bytes : List ℕ) (fault : ScriptFault) →
        refuses reading bytes (Err fault) → tells reading bytes (Err fault) };
}

/// What is told at the end of the lines of a script.
fn tell_end<R: Reading>(
    alloc: Global,
    reading: R,
    taken: Taken,
    mut heard: R::Hears,
) -> Result<R::Told, ScriptStop>
    ensures told { IfOk result (λ told. (bytes : List ℕ) → HaveGone R.Hears.voice
        R.Writes.writes bytes taken.text.items (R.Hears.written heard) taken.number [] taken.stage →
        R.tells reading bytes (Ok (R.list_of told))) }
    ensures shown { IfOk result (λ told. (bytes : List ℕ) → HaveGone R.Hears.voice
        R.Writes.writes bytes taken.text.items (R.Hears.written heard) taken.number [] taken.stage →
        R.shows reading bytes (R.list_of told)) }
    ensures refused { IfErr result (λ stop. (bytes : List ℕ) → HaveGone R.Hears.voice
        R.Writes.writes bytes taken.text.items (R.Hears.written heard) taken.number [] taken.stage →
        StopsWith (R.refuses reading bytes) stop) }
{
    let Taken {
        stage,
        number,
        mut text,
    } = taken;
    let bus = match stage.end::<R>(alloc, &mut heard, &mut text) {
        Ok(bus) => bus,
        Err(stop) => return Err(at_line(number, stop)),
    };
    match reading.tell(alloc, bus, text, heard) {
        Ok(told) => Ok(told),
        Err(stop) => Err(at_line(number, stop)),
    }
}

/// What is told of a script, by one of its runs.
fn told_of<R: Reading>(alloc: Global, bytes: &[u8], reading: R) -> Result<R::Told, ScriptStop>
    requires { length bytes.now ≤ 1048576 }
    ensures told { IfOk result (λ told. R.tells reading bytes.now (Ok (R.list_of told))) }
    ensures shown { IfOk result (λ told. R.shows reading bytes.now (R.list_of told)) }
    ensures refused { IfErr result (StopsWith (R.refuses reading bytes.now)) }
{
    let mut heard = R::Hears::first(alloc);
    match take_lines::<R>(alloc, bytes, &mut heard) {
        Ok(taken) => tell_end(alloc, reading, taken, heard),
        Err(stop) => Err(stop),
    }
}

/// Reads a script, of 1,048,576 bytes at most: goes through its lines and the `settle` that stands
/// behind the last, and tells what the reading tells of it.
pub(crate) fn read_script<R: Reading>(
    alloc: Global,
    bytes: &[u8],
    reading: R,
) -> Result<R::Told, ScriptStop>
    requires { length bytes.now ≤ 1048576 }
    ensures told { IfOk result (λ told. R.tells reading bytes.now (Ok (R.list_of told))) }
    ensures shown { IfOk result (λ told. R.shows reading bytes.now (R.list_of told)) }
    ensures refused { IfErr result (StopsWith (R.refuses reading bytes.now)) }
    ensures only { IfOk result (λ told. (other : ScriptResult) →
        R.tells reading bytes.now other → other ≡ Ok (R.list_of told)) }
    ensures exact { IfErr result (λ stop. (told : ScriptResult) →
        R.tells reading bytes.now told → IsOnlyFault told stop) }
{
    reading.one();
    told_of(alloc, bytes, reading)
}
