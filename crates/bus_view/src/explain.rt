//! What is said of the faults of a script, in sentences or as JSON.
ghost use Rattle.std.specs.Prelude.{◌≡◌, ◌≤◌, ◌<◌, ◌+◌, ◌++◌, ◌^◌, length, drop, IfOk, OnOk};
ghost use Rattle.std.specs.Prelude.{string_bytes};
ghost use Rattle.std.specs.Str.Lossy.{utf8_lossy};
ghost use Rattle.json.specs.Tree.{members_tokens};
ghost use Rattle.bus_json.specs.Text.{json_line};
ghost use Rattle.bus_json.specs.Lines.{IsJsonLine, AreJsonLines};
ghost use Rattle.script_words.specs.Sentence.{sentence_in};
ghost use Rattle.script_words.specs.Before.{feed_lines};
ghost use Rattle.bus_view.specs.declared.form.ExplainForm.{ExplainForm};
ghost use Rattle.bus_view.specs.Answer.{IsExplainView};
ghost use Rattle.bus_view.specs.Explained.{no_fault, said_members, explained_value, unended, explained_line, told_in, line_said, AreSaid, IsBehind, IsExplained};

use crate::answer::View;
use crate::form::ExplainForm;
use bus_json::JsonText;
use script_run::{ScriptFault, ScriptStop, kind_word, run_script, script_line};
use script_words::{CutScript, Kind};
use std::alloc::Global;
use top_call::{REFUSED, VALID};
use topology_stack::OutOfMemory;

/// Writes the members of a fault: the number of its line, its kind, and the sentence on it.
fn put_said(out: &mut JsonText, line: u32, kind: &str, said: &str) -> Result<(), OutOfMemory>
    ensures { OnOk result (out.new
        ≡ out.old ++ members_tokens (said_members line kind.now said.now)) }
{
    out.number_member("line", u64::from(line))?;
    out.string_member("kind", kind)?;
    out.string_member("said", said)?;
    out.close_object()
}

/// The line of JSON of a script's fault: the number of its line, from 1, its kind, and the sentence on it.
///
/// `{"schema":1,"refused":{"line":L,"kind":"KIND","said":"SENTENCE"}}`.
fn said_line(alloc: Global, line: u32, kind: &str, said: &str) -> Result<Vec<u8>, OutOfMemory>
    ensures line { IfOk result (λ text.
        text.items ≡ json_line (explained_value line kind.now said.now)) }
    ensures json { OnOk result (IsJsonLine (json_line (explained_value line kind.now said.now))) }
{
    let mut out = JsonText::new(alloc);
    out.open_schema()?;
    out.key("refused")?;
    out.open_object()?;
    put_said(&mut out, line, kind, said)?;
    out.close_object()?;
    let text = out.into_line()?;
    Ok(text)
}

/// The sentence on a script's fault, without its line feed.
fn sentence_of(alloc: Global, script: &CutScript, fault: ScriptFault) -> Result<String, OutOfMemory>
    ensures { IfOk result (λ said.
        string_bytes said ≡ utf8_lossy (unended (sentence_in script.now fault))) }
{
    let mut sentence = Vec::new(alloc);
    script.put_sentence(alloc, &mut sentence, fault)?;
    let said = String::from_utf8_lossy(alloc, &sentence[..sentence.len().saturating_sub(1)])?;
    Ok(said)
}

/// The same of a fault of a script.
fn explained_line(
    alloc: Global,
    script: &CutScript,
    fault: ScriptFault,
) -> Result<Vec<u8>, OutOfMemory>
    ensures line { IfOk result (λ line. line.items ≡ explained_line script.now fault) }
    ensures json { OnOk result (IsJsonLine (explained_line script.now fault)) }
{
    let said = sentence_of(alloc, script, fault)?;
    let line = said_line(alloc, fault.line, kind_word(fault.kind), said.as_str())?;
    Ok(line)
}

/// Appends what is said of a script's fault.
fn put_told(
    alloc: Global,
    out: &mut Vec<u8>,
    form: ExplainForm,
    script: &CutScript,
    fault: ScriptFault,
) -> Result<(), OutOfMemory>
    ensures told { OnOk result (out.new.items ≡ out.old.items ++ told_in form script.now fault) }
    ensures json { form ≡ ExplainForm.Json → OnOk result (IsJsonLine (told_in form script.now fault)) }
{
    match form {
        ExplainForm::Text => {
            out.extend_from_slice(script_line(fault).as_bytes())?;
            script.put_sentence(alloc, out, fault)
        }
        ExplainForm::Json => {
            let line = explained_line(alloc, script, fault)?;
            out.extend_from_slice(&line)
        }
    }
}

/// Appends what is said of the line of this number, from 1, if it is at fault.
fn put_line_said(
    alloc: Global,
    out: &mut Vec<u8>,
    form: ExplainForm,
    script: &CutScript,
    number: u32,
    fault: Option<Kind>,
) -> Result<(), OutOfMemory>
    ensures told { OnOk result (out.new.items
        ≡ out.old.items ++ line_said form script.now number fault) }
    ensures json { form ≡ ExplainForm.Json →
        OnOk result (AreJsonLines (line_said form script.now number fault)) }
{
    match fault {
        None => Ok(()),
        Some(kind) => {
            let line = number;
            put_told(alloc, out, form, script, ScriptFault { line, kind })
        }
    }
}

/// What is said of the lines from this number on, from 0, that are at fault by their own words.
fn lines_said(
    alloc: Global,
    form: ExplainForm,
    script: &CutScript,
    first: usize,
) -> Result<Vec<u8>, OutOfMemory>
    requires { length script.now < 2 ^ 32 }
    ensures told { IfOk result (λ text.
        AreSaid form script.now (first + 1) (drop first script.now) text.items) }
    ensures json { form ≡ ExplainForm.Json → IfOk result (λ text. AreJsonLines text.items) }
{
    let mut text = Vec::new(alloc);
    for number in first..script.len() {
        let fault = script.line_fault(alloc, number)?;
        put_line_said(alloc, &mut text, form, script, number as u32 + 1, fault)?;
    }
    Ok(text)
}

/// What is said behind the line of this number, from 1, which has this fault by its own words, or
/// none.
fn said_behind(
    alloc: Global,
    form: ExplainForm,
    script: &CutScript,
    line: u32,
    own: Option<Kind>,
) -> Result<Vec<u8>, OutOfMemory>
    requires { length script.now < 2 ^ 32 }
    ensures told { IfOk result (λ text. IsBehind form script.now line own text.items) }
    ensures json { form ≡ ExplainForm.Json → IfOk result (λ text. AreJsonLines text.items) }
{
    match own {
        None => Ok(Vec::new(alloc)),
        Some(_) => lines_said(alloc, form, script, line as usize),
    }
}

/// What is said of a script's fault, and of the lines behind it.
fn all_explained(
    alloc: Global,
    form: ExplainForm,
    bytes: &[u8],
    fault: ScriptFault,
) -> Result<Vec<u8>, OutOfMemory>
    requires { length bytes.now ≤ 1048576 }
    ensures told { IfOk result (λ text. IsExplained form (feed_lines bytes.now) fault text.items) }
    ensures json { form ≡ ExplainForm.Json → IfOk result (λ text. AreJsonLines text.items) }
{
    let script = CutScript::new(alloc, bytes)?;
    let mut text = Vec::new(alloc);
    put_told(alloc, &mut text, form, &script, fault)?;
    let own = script.line_fault(alloc, fault.line.saturating_sub(1) as usize)?;
    let behind = said_behind(alloc, form, &script, fault.line, own)?;
    text.extend_from_slice(&behind)?;
    Ok(text)
}

/// What is written of a script without a fault.
fn no_fault(form: ExplainForm) -> &'static str
    ensures { result.now ≡ no_fault form }
{
    match form {
        ExplainForm::Text => "no fault\n",
        ExplainForm::Json => "",
    }
}

/// What is said of a script's faults, or that it has none.
pub(crate) fn view_explain(
    alloc: Global,
    form: ExplainForm,
    bytes: &[u8],
) -> Result<View, OutOfMemory>
    requires { length bytes.now ≤ 1048576 }
    ensures told { IfOk result (λ view. IsExplainView form bytes.now view.status view.text.items) }
    ensures json { form ≡ ExplainForm.Json → IfOk result (λ view. AreJsonLines view.text.items) }
{
    match run_script(alloc, bytes) {
        Ok(_text) => Ok(View {
            status: VALID,
            text: Vec::from_slice(alloc, no_fault(form).as_bytes())?,
        }),
        Err(ScriptStop::Fault(fault)) => Ok(View {
            status: REFUSED,
            text: all_explained(alloc, form, bytes, fault)?,
        }),
        Err(ScriptStop::Memory(error)) => Err(error),
    }
}
