//! The answer to the bytes of a capture or of a script.
ghost use Rattle.std.specs.Prelude.{◌≡◌, ◌≤◌, ◌<◌, ◌+◌, ◌++◌, ◌^◌, ◌↔◌, ℕ, List, length, drop, alloc_error, IfOk, IfSome, OnOk, IsErrOf, IsOkUnless};
ghost use Rattle.std.specs.Io.KnownBytes.{IsAtEnd};
ghost use Rattle.io_edges.specs.Faults.{Rose};
ghost use Rattle.io_edges.specs.Told.{AreLeft, IfTold, TookOver};
ghost use Rattle.bus_view.specs.declared.form.CaptureView.{CaptureView};
ghost use Rattle.bus_view.specs.Answer.{IsFault, IsCaptureView, IsTraceView, IsWavesView, IsGraphView, IsReportsView, IsScriptView, IsListView, IsView, IsViewOfItself};
ghost use Rattle.bus_view.specs.Explained.{explanation};
ghost use Rattle.bus_view.specs.codings.Reading.{IsReadWhole};
ghost use Rattle.capture_reading.specs.Line.{fault_line};
ghost use Rattle.bus_json.specs.Lines.{IsJsonLine};
ghost use Rattle.bus_view.specs.ReadBack.{AreReports, IsDotOf, ReadsBack};

use crate::explain::view_explain;
use crate::form::{CaptureView, ViewForm};
use crate::help::VIEW_HELP;
use crate::refusal::fault_json;
use crate::sentence::note_of;
use about::{About, about_text};
use bus_json::{bus_line, line_refusal};
use capture_reading::{CaptureFault, CaptureStop, fault_line, read_capture};
use io_edges::{ReadStop, Source, read_all};
use quad_lanes::{capture_of, quads_of};
use script_made::make_script;
use script_run::{
    ScriptFault, ScriptStop, dump_script, graph_script, json_script, kind_word, list_script,
    script_line, trace_script,
};
use script_words::put_sentence;
use self_id::Standard;
use std::alloc::Global;
use top_call::{MAX_INPUT, REFUSED, Reply, VALID};
use topology_stack::{BusTree, Name, OutOfMemory};
use view_text::{Note, packets_of, pairs_text, tree_drawing, tree_graph};

/// What is written, and the status.
#[derive(Debug, Drop)]
pub struct View {
    pub(crate) status: u8,
    pub(crate) text: Vec<u8>,
}

impl Reply for View {
    ghost status_of = { λ view. view.status };

    ghost text_of = { λ view. view.text.items };

    fn status(&self) -> u8 {
        self.status
    }

    fn text(&self) -> &[u8] {
        &self.text
    }
}

/// The fault that a capture has by a standard, if it has one.
fn fault_of(
    alloc: Global,
    standard: Standard,
    bytes: &[u8],
) -> Result<Option<CaptureFault>, OutOfMemory>
    ensures { IfOk result (λ fault. IsFault standard bytes.now fault) }
{
    match read_capture(alloc, standard, bytes) {
        Ok(_) => Ok(None),
        Err(CaptureStop::Fault(fault)) => Ok(Some(fault)),
        Err(CaptureStop::Memory(error)) => Err(error),
    }
}

/// The view of a capture's packets, which are judged by a standard.
fn view_packets(alloc: Global, standard: Standard, bytes: &[u8]) -> Result<View, OutOfMemory>
    requires { length bytes.now < 2 ^ 60 }
    ensures { IfOk result (λ view.
        IsCaptureView CaptureView.Packets standard bytes.now view.status view.text.items) }
{
    let fault = fault_of(alloc, standard, bytes)?;
    let quads = quads_of(alloc, bytes)?;
    let packets = packets_of(alloc, quads.as_slice())?;
    match fault {
        None => {
            let none = Note {
                pair: 0,
                text: Vec::new(alloc),
            };
            let text = pairs_text(alloc, bytes, &packets, &none)?;
            Ok(View {
                status: VALID,
                text,
            })
        }
        Some(fault) => {
            let note = note_of(alloc, standard, bytes, quads.as_slice(), &packets, fault)?;
            let text = pairs_text(alloc, bytes, &packets, &note)?;
            Ok(View {
                status: REFUSED,
                text,
            })
        }
    }
}

/// The line of a fault.
fn line_text(alloc: Global, fault: CaptureFault) -> Result<Vec<u8>, OutOfMemory>
    ensures { IfOk result (λ text. text.items ≡ fault_line fault) }
{
    let line = fault_line(fault);
    Vec::from_slice(alloc, line.as_bytes())
}

/// The view of the tree that a capture spells, as a drawing.
fn view_tree(alloc: Global, standard: Standard, bytes: &[u8]) -> Result<View, OutOfMemory>
    ensures { IfOk result (λ view.
        IsCaptureView CaptureView.Tree standard bytes.now view.status view.text.items) }
{
    match read_capture(alloc, standard, bytes) {
        Ok(tree) => Ok(View {
            status: VALID,
            text: tree_drawing(alloc, &tree)?,
        }),
        Err(CaptureStop::Fault(fault)) => Ok(View {
            status: REFUSED,
            text: line_text(alloc, fault)?,
        }),
        Err(CaptureStop::Memory(error)) => Err(error),
    }
}

/// The same as a graph.
fn view_dot(alloc: Global, standard: Standard, bytes: &[u8]) -> Result<View, OutOfMemory>
    ensures view { IfOk result (λ view.
        IsCaptureView CaptureView.Dot standard bytes.now view.status view.text.items) }
    ensures dot { IfOk result (λ view. view.status ≡ 0 →
        IsDotOf standard bytes.now view.text.items) }
{
    match read_capture(alloc, standard, bytes) {
        Ok(tree) => Ok(View {
            status: VALID,
            text: tree_graph(alloc, &tree)?,
        }),
        Err(CaptureStop::Fault(fault)) => Ok(View {
            status: REFUSED,
            text: line_text(alloc, fault)?,
        }),
        Err(CaptureStop::Memory(error)) => Err(error),
    }
}

/// The same as a line of JSON.
fn view_json(alloc: Global, standard: Standard, bytes: &[u8]) -> Result<View, OutOfMemory>
    ensures view { IfOk result (λ view.
        IsCaptureView CaptureView.Json standard bytes.now view.status view.text.items) }
    ensures json { IfOk result (λ view. IsJsonLine view.text.items) }
{
    match read_capture(alloc, standard, bytes) {
        Ok(tree) => Ok(View {
            status: VALID,
            text: bus_line(alloc, &tree)?,
        }),
        Err(CaptureStop::Fault(fault)) => Ok(View {
            status: REFUSED,
            text: fault_json(alloc, fault)?,
        }),
        Err(CaptureStop::Memory(error)) => Err(error),
    }
}

/// The line of a script's fault, and what stands there and was wanted.
fn explained(alloc: Global, bytes: &[u8], fault: ScriptFault) -> Result<Vec<u8>, OutOfMemory>
    requires { length bytes.now ≤ 1048576 }
    ensures { IfOk result (λ text. text.items ≡ explanation bytes.now fault) }
{
    let mut text = Vec::from_slice(alloc, script_line(fault).as_bytes())?;
    put_sentence(alloc, &mut text, bytes, fault)?;
    Ok(text)
}

/// The trace of a script.
fn view_trace(alloc: Global, bytes: &[u8]) -> Result<View, OutOfMemory>
    requires { length bytes.now ≤ 1048576 }
    ensures { IfOk result (λ view. IsTraceView bytes.now view.status view.text.items) }
{
    match trace_script(alloc, bytes) {
        Ok(text) => Ok(View {
            status: VALID,
            text,
        }),
        Err(ScriptStop::Fault(fault)) => Ok(View {
            status: REFUSED,
            text: explained(alloc, bytes, fault)?,
        }),
        Err(ScriptStop::Memory(error)) => Err(error),
    }
}

/// The dump of a script.
fn view_waves(alloc: Global, bytes: &[u8]) -> Result<View, OutOfMemory>
    requires { length bytes.now ≤ 1048576 }
    ensures { IfOk result (λ view. IsWavesView bytes.now view.status view.text.items) }
{
    match dump_script(alloc, bytes) {
        Ok(text) => Ok(View {
            status: VALID,
            text,
        }),
        Err(ScriptStop::Fault(fault)) => Ok(View {
            status: REFUSED,
            text: explained(alloc, bytes, fault)?,
        }),
        Err(ScriptStop::Memory(error)) => Err(error),
    }
}

/// The graph of a script's last report.
fn view_graph(alloc: Global, bytes: &[u8]) -> Result<View, OutOfMemory>
    requires { length bytes.now ≤ 1048576 }
    ensures { IfOk result (λ view. IsGraphView bytes.now view.status view.text.items) }
{
    match graph_script(alloc, bytes) {
        Ok(text) => Ok(View {
            status: VALID,
            text,
        }),
        Err(ScriptStop::Fault(fault)) => Ok(View {
            status: REFUSED,
            text: explained(alloc, bytes, fault)?,
        }),
        Err(ScriptStop::Memory(error)) => Err(error),
    }
}

/// The reports of a script as JSON.
fn view_reports(alloc: Global, bytes: &[u8]) -> Result<View, OutOfMemory>
    requires { length bytes.now ≤ 1048576 }
    ensures view { IfOk result (λ view. IsReportsView bytes.now view.status view.text.items) }
    ensures json { IfOk result (λ view. AreReports bytes.now view.status view.text.items) }
{
    match json_script(alloc, bytes) {
        Ok(text) => Ok(View {
            status: VALID,
            text,
        }),
        Err(ScriptStop::Fault(fault)) => Ok(View {
            status: REFUSED,
            text: line_refusal(alloc, fault.line, kind_word(fault.kind))?,
        }),
        Err(ScriptStop::Memory(error)) => Err(error),
    }
}

/// The capture of the list of a script's node.
fn view_list(alloc: Global, name: &Name, bytes: &[u8]) -> Result<View, OutOfMemory>
    requires { length bytes.now ≤ 1048576 }
    ensures { IfOk result (λ view. IsListView name.now bytes.now view.status view.text.items) }
{
    match list_script(alloc, bytes, name) {
        Ok(list) => Ok(View {
            status: VALID,
            text: capture_of(alloc, list.as_slice())?,
        }),
        Err(ScriptStop::Fault(fault)) => Ok(View {
            status: REFUSED,
            text: Vec::from_slice(alloc, script_line(fault).as_bytes())?,
        }),
        Err(ScriptStop::Memory(error)) => Err(error),
    }
}

/// The script that is made for so many nodes, 1 to 63, and a seed.
pub(crate) fn view_script(alloc: Global, nodes: u8, seed: u32) -> Result<View, OutOfMemory>
    requires least { 1 ≤ nodes }
    requires most { nodes ≤ 63 }
    ensures { IfOk result (λ view. IsScriptView nodes seed view.status view.text.items) }
{
    Ok(View {
        status: VALID,
        text: make_script(alloc, nodes, seed)?,
    })
}

/// What the program says of itself.
pub(crate) fn view_of_itself(alloc: Global, about: About) -> Result<View, OutOfMemory>
    ensures { IfOk result (λ view. IsViewOfItself about view.status view.text.items) }
{
    Ok(View {
        status: VALID,
        text: about_text(alloc, about, "busview", VIEW_HELP)?,
    })
}

/// The view of the bytes in a form that reads them.
fn view_of(alloc: Global, form: ViewForm, bytes: &[u8]) -> Result<View, OutOfMemory>
    requires read { IsReadWhole form }
    requires few { length bytes.now ≤ 1048576 }
    ensures view { IfOk result (λ view. IsView form bytes.now view.status view.text.items) }
    ensures tells { IfOk result (λ view. ReadsBack form bytes.now view.status view.text.items) }
{
    match form {
        ViewForm::Capture(CaptureView::Packets, standard) => view_packets(alloc, standard, bytes),
        ViewForm::Capture(CaptureView::Tree, standard) => view_tree(alloc, standard, bytes),
        ViewForm::Capture(CaptureView::Dot, standard) => view_dot(alloc, standard, bytes),
        ViewForm::Capture(CaptureView::Json, standard) => view_json(alloc, standard, bytes),
        ViewForm::Trace => view_trace(alloc, bytes),
        ViewForm::Waves => view_waves(alloc, bytes),
        ViewForm::DotRun => view_graph(alloc, bytes),
        ViewForm::JsonRun => view_reports(alloc, bytes),
        ViewForm::Explain(form) => view_explain(alloc, form, bytes),
        ViewForm::ListOf(name) => view_list(alloc, &name, bytes),
        ViewForm::Script { .. } | ViewForm::Resets(_) | ViewForm::Nosy(_) | ViewForm::OfItself(_) =>
            unreachable!(),
    }
}

/// The view of the whole input, in a form that reads it.
pub(crate) fn view_all<S: Source>(
    alloc: Global,
    form: ViewForm,
    source: &mut S,
) -> Result<View, ReadStop>
    requires { IsReadWhole form }
    ensures answer { IfOk result (λ view. (bytes : List ℕ) × AreLeft (S.left source.old) bytes
        × IsView form bytes view.status view.text.items
        × ReadsBack form bytes view.status view.text.items) }
    ensures end { OnOk result (IsAtEnd (S.left source.new)) }
    ensures fault { IsErrOf result ReadStop.ReadFault →
        Rose (S.faults source.old) (S.faults source.new) }
    ensures long { IfTold (S.left source.old) (S.left source.new) (λ old new.
        IsErrOf result ReadStop.TooLong ↔ TookOver 1048576 old new) }
    ensures complete { ¬ Rose (S.faults source.old) (S.faults source.new) →
        IfSome (S.left source.old) (λ bytes. length bytes ≤ 1048576 →
        IsOkUnless result (ReadStop.Memory alloc_error)) }
{
    let bytes = read_all(alloc, source, MAX_INPUT)?;
    Ok(view_of(alloc, form, &bytes)?)
}
