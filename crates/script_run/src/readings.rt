//! The seven ways to read a script: its text, its advice, its trace, its dump, a list of its bus, its
//! graph and the lines of its reports.
ghost use Rattle.std.specs.Prelude.{◌≡◌, ◌≤◌, ◌++◌, [], Ok, IfOk, IfErr, OnOk, length};
ghost use Rattle.std.proofs.Common.{refl};
ghost use Rattle.script_told.specs.Script.{ScriptResult};
ghost use Rattle.script_told.specs.Run.{IsResult};
ghost use Rattle.script_advice.specs.Advice.{IsAdvice, EndsWithoutLoop};
ghost use Rattle.script_trace.specs.Trace.{IsTrace};
ghost use Rattle.script_trace.specs.waves.Waves.{IsWaves};
ghost use Rattle.script_run.specs.Answer.{PrintsRun};
ghost use Rattle.script_run.specs.Answered.{StopsWith, IsRefused, IsAdviceRefused, IsOnlyFault};
ghost use Rattle.script_run.specs.Listed.{IsListed};
ghost use Rattle.script_run.specs.Viewed.{IsPictured, AreReported, AreReadBack, IsReadAfter};
ghost use Rattle.script_run.specs.codings.Reading.{advice_of_fault, end_of_fault, list_of_fault};

use crate::laws::{scripts_have_one_view, told_texts_are_printed};
use crate::reading::{Hearer, Reading, Writer, read_script};
use crate::stage::Stage;
use script_advice::{advices_leave_no_loop, scripts_have_one_advice};
use script_bus::{Bus, Silent};
use script_lines::{LineStop, ScriptStop};
use script_text::reports_have_one_text;
use script_told::scripts_tell_one_thing;
use script_trace::{
    Trace, Waves, scripts_have_one_dump, scripts_have_one_trace, turns_show_what_is_sent,
};
use std::alloc::Global;
use topology_stack::{Name, OutOfMemory};

// ---- who hears

impl Hearer for Silent {
    fn first(_alloc: Global) -> Silent {
        Silent
    }
}

impl Hearer for Trace {
    fn first(alloc: Global) -> Trace {
        Trace::new(alloc)
    }
}

impl Hearer for Waves {
    fn first(alloc: Global) -> Waves {
        Waves::new(alloc)
    }
}

// ---- what is written

/// Appends a text, which is taken over where nothing stands before it.
fn put_text(out: &mut Vec<u8>, text: Vec<u8>) -> Result<(), OutOfMemory>
    ensures { OnOk result (out.new.items ≡ out.old.items ++ text.items) }
{
    if out.is_empty() {
        *out = text;
        return Ok(());
    }
    out.extend_from_slice(text.as_slice())
}

/// Writes what a command prints.
struct Texts;

impl Writer for Texts {
    ghost writes = { λ prints after text added. added ≡ text };

    fn write(
        alloc: Global,
        prints: bool,
        stage: &Stage,
        words: Vec<u8>,
        out: &mut Vec<u8>,
    ) -> Result<(), OutOfMemory> {
        reports_have_one_text();
        put_text(out, words)?;
        if !prints {
            return Ok(());
        }
        let report = stage.text(alloc)?;
        put_text(out, report)?;
        Ok(())
    }

    ghost nothing = { λ after. refl };
}

/// Writes the line of a report, where a command prints one.
struct Lines;

impl Writer for Lines {
    ghost writes = { IsReadAfter };

    fn write(
        alloc: Global,
        prints: bool,
        stage: &Stage,
        _words: Vec<u8>,
        out: &mut Vec<u8>,
    ) -> Result<(), OutOfMemory> {
        if prints {
            let line = stage.line(alloc)?;
            out.extend_from_slice(line.as_slice())?;
        }
        Ok(())
    }

    ghost nothing = { λ after. refl };
}

/// Writes nothing.
struct Nothing;

impl Writer for Nothing {
    ghost writes = { λ prints after text added. added ≡ [] };

    fn write(
        _alloc: Global,
        _prints: bool,
        _stage: &Stage,
        _words: Vec<u8>,
        _out: &mut Vec<u8>,
    ) -> Result<(), OutOfMemory> {
        Ok(())
    }

    ghost nothing = { λ after. refl };
}

// ---- the text

/// What the commands print is told.
#[derive(Clone, Copy, Drop)]
struct Printing;

impl Reading for Printing {
    type Hears = Silent;

    type Writes = Texts;

    type Told = Vec<u8>;

    ghost list_of = { λ text. text.items };

    ghost tells = { λ _. IsResult };

    ghost refuses = { λ _. IsResult };

    ghost shows = { λ _. PrintsRun };

    fn tell(
        self,
        _alloc: Global,
        bus: Bus,
        text: Vec<u8>,
        heard: Silent,
    ) -> Result<Vec<u8>, LineStop> {
        told_texts_are_printed();
        Ok(text)
    }

    fn one(&self) {
        scripts_tell_one_thing();
    }

    ghost of_script = { λ _ _ _ is. is };

    ghost is_told = { λ _ _ _ is. is };
}

/// The text of a script, of 1,048,576 bytes at most: what its lines print, in order, and the report
/// of the `settle` that stands behind its last line.
///
/// A script is refused for the fault of its first bad line, by the number of that line from 1. The
/// last `settle` has the number of lines and 1.
pub fn run_script(alloc: Global, bytes: &[u8]) -> Result<Vec<u8>, ScriptStop>
    requires { length bytes.now ≤ 1048576 }
    ensures told { IfOk result (λ text. IsResult bytes.now (Ok text.items)) }
    ensures printed { IfOk result (λ text. PrintsRun bytes.now text.items) }
    ensures refused { IfErr result (IsRefused bytes.now) }
    ensures only { IfOk result (λ text. (told : ScriptResult) → IsResult bytes.now told
        → told ≡ Ok text.items) }
    ensures exact { IfErr result (λ stop. (told : ScriptResult) → IsResult bytes.now told
        → IsOnlyFault told stop) }
{
    read_script(alloc, bytes, Printing)
}

// ---- the advice

/// What is advised on the bus at the end is told.
#[derive(Clone, Copy, Drop)]
struct Advising;

impl Reading for Advising {
    type Hears = Silent;

    type Writes = Nothing;

    type Told = Vec<u8>;

    ghost list_of = { λ text. text.items };

    ghost tells = { λ _. IsAdvice };

    ghost refuses = { λ _. IsAdvice };

    fn tell(
        self,
        alloc: Global,
        bus: Bus,
        text: Vec<u8>,
        heard: Silent,
    ) -> Result<Vec<u8>, LineStop> {
        bus.advised(alloc)
    }

    fn one(&self) {
        scripts_have_one_advice();
    }

    ghost of_script = { λ _. advice_of_fault };

    ghost is_told = { λ _ _ _ is. is };
}

/// Which cables of a script's bus to pull, and what it then settles on. The script has 1,048,576
/// bytes at most.
///
/// The script is run with the `settle` behind its last line. Then, for each component that came to
/// a loop, by rising least node, the cables that `loop_advice::advise` advises are pulled, each at
/// its lower end. Then the bus settles once more: none of its components is a loop then.
///
/// The text has, for each looped component, `advice NAME NAME` with its nodes, `pull NAME PORT NAME
/// PORT` for each cable, and `left L` with the number of those that stay; or `advice none`. Then
/// there is the report of the second `settle`, with the next number. What the script itself prints
/// isn't in it.
///
/// The faults are those of `run_script`. Where the second `settle` passes the limit of turns,
/// `TooManyTurns` comes, with the number of lines and 1.
pub fn advise_script(alloc: Global, bytes: &[u8]) -> Result<Vec<u8>, ScriptStop>
    requires { length bytes.now ≤ 1048576 }
    ensures told { IfOk result (λ text. IsAdvice bytes.now (Ok text.items)) }
    ensures no_loop { IfOk result (λ text. EndsWithoutLoop bytes.now text.items) }
    ensures refused { IfErr result (IsAdviceRefused bytes.now) }
    ensures only { IfOk result (λ text. (told : ScriptResult) → IsAdvice bytes.now told
        → told ≡ Ok text.items) }
    ensures exact { IfErr result (λ stop. (told : ScriptResult) → IsAdvice bytes.now told
        → IsOnlyFault told stop) }
{
    advices_leave_no_loop();
    read_script(alloc, bytes, Advising)
}

// ---- the trace

/// What a trace has heard is told.
#[derive(Clone, Copy, Drop)]
struct Tracing;

impl Reading for Tracing {
    type Hears = Trace;

    type Writes = Nothing;

    type Told = Vec<u8>;

    ghost list_of = { λ lines. lines.items };

    ghost tells = { λ _. IsTrace };

    ghost refuses = { λ _. IsResult };

    fn tell(
        self,
        _alloc: Global,
        bus: Bus,
        text: Vec<u8>,
        heard: Trace,
    ) -> Result<Vec<u8>, LineStop> {
        Ok(heard.into_text())
    }

    fn one(&self) {
        scripts_have_one_trace();
    }

    ghost of_script = { λ _ _ _ is. is };

    ghost is_told = { λ _. end_of_fault };
}

/// The trace of a script, of 1,048,576 bytes at most: what happens on its bus, in the order in which
/// it happens, through the `settle` behind its last line. What the script prints isn't in it.
///
/// Each line begins with `turn T`: the number of turns done. An act or a hold stands there in the
/// words of its line, and a plan's packet as a `config`. Then come the nodes by rising number, each
/// with its name: the state that it entered, the configuration timeout, the ports that came to lead
/// to its parent and to children, the coin that it drew and its wait, its phy_ID, and each signal that
/// it sent, by rising port. A turn in which nothing of this happens has no line.
///
/// The faults are those of `run_script`.
pub fn trace_script(alloc: Global, bytes: &[u8]) -> Result<Vec<u8>, ScriptStop>
    requires { length bytes.now ≤ 1048576 }
    ensures traced { IfOk result (λ lines. IsTrace bytes.now (Ok lines.items)) }
    ensures refused { IfErr result (IsRefused bytes.now) }
    ensures only { IfOk result (λ lines. (told : ScriptResult) → IsTrace bytes.now told
        → told ≡ Ok lines.items) }
    ensures exact { IfErr result (λ stop. (told : ScriptResult) → IsTrace bytes.now told
        → IsOnlyFault told stop) }
{
    turns_show_what_is_sent();
    read_script(alloc, bytes, Tracing)
}

// ---- the dump

/// The dump of the changes that were heard is told.
#[derive(Clone, Copy, Drop)]
struct Dumping;

impl Reading for Dumping {
    type Hears = Waves;

    type Writes = Nothing;

    type Told = Vec<u8>;

    ghost list_of = { λ dump. dump.items };

    ghost tells = { λ _. IsWaves };

    ghost refuses = { λ _. IsResult };

    fn tell(
        self,
        alloc: Global,
        bus: Bus,
        text: Vec<u8>,
        heard: Waves,
    ) -> Result<Vec<u8>, LineStop> {
        Ok(bus.dump(alloc, heard)?)
    }

    fn one(&self) {
        scripts_have_one_dump();
    }

    ghost of_script = { λ _ _ _ is. is };

    ghost is_told = { λ _. end_of_fault };
}

/// The Value Change Dump (IEEE Std 1364-2005, 18.2) of a script, of 1,048,576 bytes at most: what changes
/// on its bus through the `settle` behind its last line. One unit of time is one turn.
///
/// Each node is a module with its name: its `state`, its `phy_ID`, unknown until it is taken, whether its
/// configuration had a `timeout`, and whether it is `root`; and for each port its role, the level that it
/// shows, the level that is sent there, and each grant, packet and end of packets that is. Only what
/// changes is written, after the values at power-on.
///
/// The faults are those of `run_script`.
pub fn dump_script(alloc: Global, bytes: &[u8]) -> Result<Vec<u8>, ScriptStop>
    requires { length bytes.now ≤ 1048576 }
    ensures dumped { IfOk result (λ dump. IsWaves bytes.now (Ok dump.items)) }
    ensures refused { IfErr result (IsRefused bytes.now) }
    ensures only { IfOk result (λ dump. (told : ScriptResult) → IsWaves bytes.now told
        → told ≡ Ok dump.items) }
    ensures exact { IfErr result (λ stop. (told : ScriptResult) → IsWaves bytes.now told
        → IsOnlyFault told stop) }
{
    read_script(alloc, bytes, Dumping)
}

// ---- a list

/// The list of the tree of the node with a name is told.
#[derive(Drop)]
struct Listing<'a> {
    name: &'a Name,
}

impl Reading for Listing<'_> {
    type Hears = Silent;

    type Writes = Nothing;

    type Told = Vec<u32>;

    ghost list_of = { λ list. list.items };

    ghost tells = { λ reading bytes. IsListed bytes reading.name.now };

    ghost refuses = { λ reading bytes. IsListed bytes reading.name.now };

    fn tell(
        self,
        alloc: Global,
        bus: Bus,
        text: Vec<u8>,
        heard: Silent,
    ) -> Result<Vec<u32>, LineStop> {
        bus.list_of(alloc, self.name)
    }

    fn one(&self) {
        scripts_tell_one_thing();
    }

    ghost of_script = { λ reading bytes. list_of_fault bytes reading.name.now };

    ghost is_told = { λ _ _ _ is. is };
}

/// The list of the tree in which a script's node stands when the `settle` behind its last line is
/// done: the first quadlets of its self-ID packets. The script has 1,048,576 bytes at most.
///
/// The faults are those of `run_script`. Where no node has the name, `NoNode` comes, and where its part
/// of the bus is no tree, `NotSettled`, each with the number of lines and 1.
pub fn list_script(alloc: Global, bytes: &[u8], name: &Name) -> Result<Vec<u32>, ScriptStop>
    requires { length bytes.now ≤ 1048576 }
    ensures listed { IfOk result (λ list. IsListed bytes.now name.now (Ok list.items)) }
    ensures refused { IfErr result (StopsWith (IsListed bytes.now name.now)) }
    ensures only { IfOk result (λ list. (told : ScriptResult) → IsListed bytes.now name.now told
        → told ≡ Ok list.items) }
    ensures exact { IfErr result (λ stop. (told : ScriptResult) → IsListed bytes.now name.now told
        → IsOnlyFault told stop) }
{
    read_script(alloc, bytes, Listing { name })
}

// ---- the reports

/// The graph of the report at the end is told.
#[derive(Clone, Copy, Drop)]
struct Picturing;

impl Reading for Picturing {
    type Hears = Silent;

    type Writes = Nothing;

    type Told = Vec<u8>;

    ghost list_of = { λ text. text.items };

    ghost tells = { λ _. IsPictured };

    ghost refuses = { λ _. IsResult };

    fn tell(
        self,
        alloc: Global,
        bus: Bus,
        text: Vec<u8>,
        heard: Silent,
    ) -> Result<Vec<u8>, LineStop> {
        Ok(bus.graph(alloc)?)
    }

    fn one(&self) {
        scripts_have_one_view();
    }

    ghost of_script = { λ _ _ _ is. is };

    ghost is_told = { λ _. end_of_fault };
}

/// The graph of the report of the `settle` that stands behind the last line of a script, which Graphviz
/// draws. The script has 1,048,576 bytes at most. `report_graph` says what it has.
///
/// The faults are those of `run_script`.
pub fn graph_script(alloc: Global, bytes: &[u8]) -> Result<Vec<u8>, ScriptStop>
    requires { length bytes.now ≤ 1048576 }
    ensures pictured { IfOk result (λ text. IsPictured bytes.now (Ok text.items)) }
    ensures refused { IfErr result (IsRefused bytes.now) }
    ensures only { IfOk result (λ text. (told : ScriptResult) → IsPictured bytes.now told
        → told ≡ Ok text.items) }
    ensures exact { IfErr result (λ stop. (told : ScriptResult) → IsPictured bytes.now told
        → IsOnlyFault told stop) }
{
    read_script(alloc, bytes, Picturing)
}

/// The lines of the reports are told.
#[derive(Clone, Copy, Drop)]
struct Reporting;

impl Reading for Reporting {
    type Hears = Silent;

    type Writes = Lines;

    type Told = Vec<u8>;

    ghost list_of = { λ text. text.items };

    ghost tells = { λ _. AreReported };

    ghost refuses = { λ _. IsResult };

    ghost shows = { λ _. AreReadBack };

    fn tell(
        self,
        _alloc: Global,
        bus: Bus,
        text: Vec<u8>,
        heard: Silent,
    ) -> Result<Vec<u8>, LineStop> {
        Ok(text)
    }

    fn one(&self) {
        scripts_have_one_view();
    }

    ghost of_script = { λ _ _ _ is. is };

    ghost is_told = { λ _. end_of_fault };
}

/// The reports of a script as JSON, of 1,048,576 bytes at most: a line for each that `run_script` prints,
/// as `report_line` has it, which is read back as the value of its report.
///
/// The faults are those of `run_script`.
pub fn json_script(alloc: Global, bytes: &[u8]) -> Result<Vec<u8>, ScriptStop>
    requires { length bytes.now ≤ 1048576 }
    ensures reported { IfOk result (λ text. AreReported bytes.now (Ok text.items)) }
    ensures reads_back { IfOk result (λ text. AreReadBack bytes.now text.items) }
    ensures refused { IfErr result (IsRefused bytes.now) }
    ensures only { IfOk result (λ text. (told : ScriptResult) → AreReported bytes.now told
        → told ≡ Ok text.items) }
    ensures exact { IfErr result (λ stop. (told : ScriptResult) → AreReported bytes.now told
        → IsOnlyFault told stop) }
{
    read_script(alloc, bytes, Reporting)
}
