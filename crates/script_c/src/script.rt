//! Scripts.
ghost use Rattle.std.specs.Prelude.{◌≡◌, ◌≢◌, ◌<◌, ◌≤◌, Ok, Err, IfOk, IfErr, length};
ghost use Rattle.c_border.specs.Places.{IsCopied};
ghost use Rattle.script_told.specs.Script.{ScriptResult};
ghost use Rattle.script_told.specs.Run.{IsResult};
ghost use Rattle.script_advice.specs.Advice.{IsAdvice, EndsWithoutLoop};
ghost use Rattle.script_trace.specs.Trace.{IsTrace};
ghost use Rattle.script_trace.specs.waves.Waves.{IsWaves};
ghost use Rattle.script_run.specs.Answer.{PrintsRun};
ghost use Rattle.script_c.specs.Answers.{TellsScript, TellsThis, IsTooLong};
ghost use Rattle.script_c.specs.Faults.{IsStopped};

use crate::fault::tell_stop;
use crate::record::ScriptFaultRecord;
use c_border::{TOO_LONG, tell_bytes};
use script_lines::ScriptStop;
use script_run::{advise_script, dump_script, run_script, trace_script};
use std::alloc::Global;

/// How many bytes a script has at most.
pub(crate) const MAX_SCRIPT: usize = 1_048_576;

/// Tells the text that was read of a script, or why there is none.
fn tell_text(
    read: Result<Vec<u8>, ScriptStop>,
    place: &mut [u8],
    needed: &mut usize,
    fault: &mut ScriptFaultRecord,
) -> u32
    ensures text { IfOk read (λ text.
        IsCopied text.items place.old place.new needed.new result × (fault.new ≡ fault.old)) }
    ensures stop { IfErr read (λ stop. IsStopped stop fault.old fault.new result
        × (place.new ≡ place.old) × (needed.new ≡ needed.old)) }
{
    match read {
        Ok(text) => tell_bytes(text.as_slice(), place, needed),
        Err(stop) => tell_stop(stop, fault),
    }
}

/// Tells the text of a script: what its lines print, and the report of the `settle` behind the last.
#[unsafe(no_mangle)]
pub extern "C" fn busconf_run(
    alloc: Global,
    bytes: &[u8],
    place: &mut [u8],
    needed: &mut usize,
    fault: &mut ScriptFaultRecord,
) -> u32
    ensures answer { length bytes.now ≤ 1048576 →
        TellsScript (PrintsRun bytes.now) (λ f. IsResult bytes.now (Err f))
        place.old place.new needed.old needed.new fault.old fault.new result }
    ensures only { length bytes.now ≤ 1048576 →
        (told : ScriptResult) → IsResult bytes.now told → result ≢ 2 → TellsThis told
        place.old place.new needed.old needed.new fault.old fault.new result }
    ensures too_long { 1048576 < length bytes.now →
        IsTooLong place.old place.new needed.old needed.new fault.old fault.new result }
{
    if bytes.len() > MAX_SCRIPT {
        return TOO_LONG;
    }
    tell_text(run_script(alloc, bytes), place, needed, fault)
}

/// Tells which cables of a script's bus to pull, and what it then settles on.
#[unsafe(no_mangle)]
pub extern "C" fn busconf_advice(
    alloc: Global,
    bytes: &[u8],
    place: &mut [u8],
    needed: &mut usize,
    fault: &mut ScriptFaultRecord,
) -> u32
    ensures answer { length bytes.now ≤ 1048576 →
        TellsScript (EndsWithoutLoop bytes.now) (λ f. IsAdvice bytes.now (Err f))
        place.old place.new needed.old needed.new fault.old fault.new result }
    ensures only { length bytes.now ≤ 1048576 →
        (told : ScriptResult) → IsAdvice bytes.now told → result ≢ 2 → TellsThis told
        place.old place.new needed.old needed.new fault.old fault.new result }
    ensures too_long { 1048576 < length bytes.now →
        IsTooLong place.old place.new needed.old needed.new fault.old fault.new result }
{
    if bytes.len() > MAX_SCRIPT {
        return TOO_LONG;
    }
    tell_text(advise_script(alloc, bytes), place, needed, fault)
}

/// Tells the trace of a script: what happens on its bus, in the order in which it happens.
#[unsafe(no_mangle)]
pub extern "C" fn busconf_trace(
    alloc: Global,
    bytes: &[u8],
    place: &mut [u8],
    needed: &mut usize,
    fault: &mut ScriptFaultRecord,
) -> u32
    ensures answer { length bytes.now ≤ 1048576 →
        TellsScript (λ lines. IsTrace bytes.now (Ok lines)) (λ f. IsResult bytes.now (Err f))
        place.old place.new needed.old needed.new fault.old fault.new result }
    ensures only { length bytes.now ≤ 1048576 →
        (told : ScriptResult) → IsTrace bytes.now told → result ≢ 2 → TellsThis told
        place.old place.new needed.old needed.new fault.old fault.new result }
    ensures too_long { 1048576 < length bytes.now →
        IsTooLong place.old place.new needed.old needed.new fault.old fault.new result }
{
    if bytes.len() > MAX_SCRIPT {
        return TOO_LONG;
    }
    tell_text(trace_script(alloc, bytes), place, needed, fault)
}

/// Tells the waves of a script: what changes on its bus, as a Value Change Dump.
#[unsafe(no_mangle)]
pub extern "C" fn busconf_waves(
    alloc: Global,
    bytes: &[u8],
    place: &mut [u8],
    needed: &mut usize,
    fault: &mut ScriptFaultRecord,
) -> u32
    ensures answer { length bytes.now ≤ 1048576 →
        TellsScript (λ dump. IsWaves bytes.now (Ok dump)) (λ f. IsResult bytes.now (Err f))
        place.old place.new needed.old needed.new fault.old fault.new result }
    ensures only { length bytes.now ≤ 1048576 →
        (told : ScriptResult) → IsWaves bytes.now told → result ≢ 2 → TellsThis told
        place.old place.new needed.old needed.new fault.old fault.new result }
    ensures too_long { 1048576 < length bytes.now →
        IsTooLong place.old place.new needed.old needed.new fault.old fault.new result }
{
    if bytes.len() > MAX_SCRIPT {
        return TOO_LONG;
    }
    tell_text(dump_script(alloc, bytes), place, needed, fault)
}
