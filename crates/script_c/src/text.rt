//! What is said of a script's fault: its line, and its sentence.
ghost use Rattle.std.specs.Prelude.{◌≡◌, ◌<◌, ◌≤◌, IfOk, length};
ghost use Rattle.script_words.specs.Sentence.{sentence};
ghost use Rattle.c_border.specs.Places.{IsCopied, Tells, IsUntold};
ghost use Rattle.script_c.specs.Answers.{IsUnread};
ghost use Rattle.script_run.specs.Line.{script_line};
ghost use Rattle.script_c.specs.Faults.{fault_in};

use crate::fault::fault_in;
use crate::record::ScriptFaultRecord;
use crate::script::MAX_SCRIPT;
use c_border::{NO_MEMORY, REFUSED, TOO_LONG, tell_bytes};
use script_lines::ScriptFault;
use script_run::script_line;
use script_words::put_sentence;
use std::alloc::Global;
use topology_stack::OutOfMemory;

/// Tells the line of a script's fault, as the programs write it. It takes no memory.
#[unsafe(no_mangle)]
pub extern "C" fn busconf_script_fault_text(
    fault: &ScriptFaultRecord,
    place: &mut [u8],
    needed: &mut usize,
) -> u32
    ensures line { 0 < fault.now.kind → fault.now.kind ≤ 17 →
        IsCopied (script_line (fault_in fault.now)) place.old place.new needed.new result }
    ensures zero { fault.now.kind ≡ 0 →
        IsUntold place.old place.new needed.old needed.new result }
    ensures past { 17 < fault.now.kind →
        IsUntold place.old place.new needed.old needed.new result }
{
    if fault.kind == 0 || fault.kind > 17 {
        return REFUSED;
    }
    let line = script_line(fault_in(fault));
    tell_bytes(line.as_bytes(), place, needed)
}

/// The sentence of a fault.
fn sentence_of(alloc: Global, bytes: &[u8], fault: ScriptFault) -> Result<Vec<u8>, OutOfMemory>
    requires { length bytes.now ≤ 1048576 }
    ensures { IfOk result (λ text. text.items ≡ sentence bytes.now fault) }
{
    let mut out = Vec::new(alloc);
    put_sentence(alloc, &mut out, bytes, fault)?;
    Ok(out)
}

/// Tells the sentence of a fault.
fn tell_sentence(
    alloc: Global,
    bytes: &[u8],
    fault: ScriptFault,
    place: &mut [u8],
    needed: &mut usize,
) -> u32
    requires { length bytes.now ≤ 1048576 }
    ensures { Tells (λ text. text ≡ sentence bytes.now fault) place.old place.new needed.old
        needed.new result }
{
    match sentence_of(alloc, bytes, fault) {
        Ok(text) => tell_bytes(text.as_slice(), place, needed),
        Err(_) => NO_MEMORY,
    }
}

/// Tells the sentence of a script's fault, as the program `busview` writes it: what stands there, and
/// what was wanted.
#[unsafe(no_mangle)]
pub extern "C" fn busconf_script_sentence(
    alloc: Global,
    bytes: &[u8],
    fault: &ScriptFaultRecord,
    place: &mut [u8],
    needed: &mut usize,
) -> u32
    ensures sentence { length bytes.now ≤ 1048576 → 0 < fault.now.kind → fault.now.kind ≤ 17 →
        Tells (λ text. text ≡ sentence bytes.now (fault_in fault.now)) place.old place.new
        needed.old needed.new result }
    ensures too_long { 1048576 < length bytes.now → 0 < fault.now.kind → fault.now.kind ≤ 17 →
        IsUnread place.old place.new needed.old needed.new result }
    ensures zero { fault.now.kind ≡ 0 →
        IsUntold place.old place.new needed.old needed.new result }
    ensures past { 17 < fault.now.kind →
        IsUntold place.old place.new needed.old needed.new result }
{
    if fault.kind == 0 || fault.kind > 17 {
        return REFUSED;
    }
    if bytes.len() > MAX_SCRIPT {
        return TOO_LONG;
    }
    tell_sentence(alloc, bytes, fault_in(fault), place, needed)
}
