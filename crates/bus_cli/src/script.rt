//! The answer to a script.
ghost use Rattle.std.specs.Prelude.{◌≡◌, ◌≤◌, ℕ, List, IfOk, length};
ghost use Rattle.script_made.specs.Made.{made_script};
ghost use Rattle.script_text.specs.Summary.{summary};
ghost use Rattle.script_run.specs.Answer.{PrintsRun, AnswersRun, AnswersAdvice, AnswersMake};
ghost use Rattle.bus_cli.specs.codings.Reading.{status_with, text_with};

use crate::answer::Answer;
use quad_lanes::OutOfMemory;
use script_lines::ScriptStop;
use script_made::{made_scripts_have_no_fault, make_script};
use script_run::{advise_script, run_script, script_line};
use script_text::summary;
use std::alloc::Global;

/// The answer to the bytes of a script.
pub(crate) fn answer_to_script(alloc: Global, bytes: &[u8]) -> Result<Answer, OutOfMemory>
    requires { length bytes.now ≤ 1048576 }
    ensures { IfOk result (λ answer.
        AnswersRun bytes.now (status_with answer) (text_with answer)) }
{
    match run_script(alloc, bytes) {
        Ok(text) => Ok(Answer::Valid(text)),
        Err(ScriptStop::Fault(fault)) => Ok(Answer::Refused(script_line(fault))),
        Err(ScriptStop::Memory(error)) => Err(error),
    }
}

/// The answer to the bytes of a script of whose bus the advice is asked for.
pub(crate) fn answer_to_advice(alloc: Global, bytes: &[u8]) -> Result<Answer, OutOfMemory>
    requires { length bytes.now ≤ 1048576 }
    ensures { IfOk result (λ answer.
        AnswersAdvice bytes.now (status_with answer) (text_with answer)) }
{
    match advise_script(alloc, bytes) {
        Ok(text) => Ok(Answer::Valid(text)),
        Err(ScriptStop::Fault(fault)) => Ok(Answer::Refused(script_line(fault))),
        Err(ScriptStop::Memory(error)) => Err(error),
    }
}

/// The summary of what the script prints that is made for so many nodes, 1 to 63, and a seed.
fn made_summary(alloc: Global, nodes: u8, seed: u32) -> Result<Vec<u8>, OutOfMemory>
    requires least { 1 ≤ nodes }
    requires most { nodes ≤ 63 }
    ensures { IfOk result (λ text. (whole : List ℕ)
        × PrintsRun (made_script nodes seed) whole × (text.items ≡ summary whole)) }
{
    made_scripts_have_no_fault();
    let script = make_script(alloc, nodes, seed)?;
    match run_script(alloc, &script) {
        Ok(text) => summary(alloc, &text),
        Err(ScriptStop::Fault(_)) => unreachable!(),
        Err(ScriptStop::Memory(error)) => Err(error),
    }
}

/// The answer to a request for the script that is made for so many nodes, 1 to 63, and a seed.
pub(crate) fn answer_to_make(alloc: Global, nodes: u8, seed: u32) -> Result<Answer, OutOfMemory>
    requires least { 1 ≤ nodes }
    requires most { nodes ≤ 63 }
    ensures { IfOk result (λ answer.
        AnswersMake nodes seed (status_with answer) (text_with answer)) }
{
    Ok(Answer::Valid(made_summary(alloc, nodes, seed)?))
}
