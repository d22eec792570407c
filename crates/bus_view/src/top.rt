//! The top call.
ghost use Rattle.std.specs.Prelude.{◌≡◌, ◌≢◌, ℕ, ◌⊎◌, ◌↔◌, List, IfSome};
ghost use Rattle.std.specs.Io.KnownBytes.{Appends};
ghost use Rattle.script_made.specs.Made.{made_script};
ghost use Rattle.about.specs.declared.asked.About.{About};
ghost use Rattle.self_id.specs.declared.standard.Standard.{Standard};
ghost use Rattle.reset_list.specs.declared.form.LogForm.{LogForm};
ghost use Rattle.nosy_dump.specs.Dump.{IsBegun};
ghost use Rattle.io_edges.specs.Streams.{IsWritten, KeepsStreams};
ghost use Rattle.bus_view.specs.declared.form.CaptureView.{CaptureView};
ghost use Rattle.trace_laws.specs.Events.{IsOfEvents};
ghost use Rattle.wave_laws.specs.Run.{ShowsItsRun};
ghost use Rattle.picture_laws.specs.Dots.{IsScriptDot};
ghost use Rattle.bus_view.specs.declared.form.ExplainForm.{ExplainForm};
ghost use Rattle.bus_view.specs.declared.form.ViewForm.{ViewForm};
ghost use Rattle.bus_view.specs.Form.{Asks, AsksLog, AsksNoInput, IsForm};
ghost use Rattle.bus_view.specs.Answer.{IsCaptureView, IsTraceView, IsWavesView, IsExplainView};
ghost use Rattle.bus_view.specs.Answer.{IsGraphView, IsReportsView};
ghost use Rattle.bus_view.specs.Answer.{Answers, IsViewOfItself};
ghost use Rattle.bus_view.specs.Log.{IsLogView, IsDumpView, IsLogBegun, ShowsAsItComes};
ghost use Rattle.bus_view.specs.Captured.{AnswersCapture};
ghost use Rattle.bus_view.specs.Summed.{IsSummedScript};
ghost use Rattle.bus_view.specs.ReadBack.{AsksJson, IsDotOf};
ghost use Rattle.bus_json.specs.Lines.{WritesJsonLines};
ghost use Rattle.script_run.specs.Viewed.{AreReadBack};

use crate::form::ViewForm;
use crate::laws::{captures_are_of_reports, make_sums_up_the_script, one_view};
use crate::logs::{show_nosy, show_resets};
use io_edges::{Sink, Source};
use nosy_dump::dump_form;
use picture_laws::pictures_are_dot;
use reset_log::resets_form;
use std::alloc::Global;
use top_call::answer;
use trace_laws::traces_are_of_events;
use wave_laws::dumps_show_the_run;

/// Answers the words, as `view_main` has it.
fn view_asked<S: Source, K: Sink>(
    alloc: Global,
    words: &[String],
    source: &mut S,
    sink: &mut K,
) -> u8
    ensures streams { (¬ AsksLog words.now) → KeepsStreams
        S.left S.faults K.written K.faults K.surely_takes (AsksNoInput words.now)
        (Answers words.now) result source.old source.new sink.old sink.new }
    ensures no_form { (result ≡ 2) ↔ (¬ IsForm words.now) }
    ensures resets { (form : LogForm) → Asks words.now (ViewForm.Resets form) →
        ShowsAsItComes S.left S.faults K.written K.faults K.surely_takes
        ((result ≡ 0) ⊎ (result ≡ 1)) (IsLogView form) (IsLogBegun form)
        result source.old source.new sink.old sink.new }
    ensures nosy { (form : LogForm) → Asks words.now (ViewForm.Nosy form) →
        ShowsAsItComes S.left S.faults K.written K.faults K.surely_takes
        (result ≡ 0) (IsDumpView form) (IsBegun form)
        result source.old source.new sink.old sink.new }
    ensures json_lines { AsksJson words.now → (result ≡ 0) ⊎ (result ≡ 1) →
        WritesJsonLines (K.written sink.old) (K.written sink.new) }
    ensures reports { Asks words.now ViewForm.JsonRun → result ≡ 0 →
        IfSome (S.left source.old) (λ bytes. (text : List ℕ) × AreReadBack bytes text
        × Appends (K.written sink.old) (K.written sink.new) text) }
    ensures dot_graph { (standard : Standard) →
        Asks words.now (ViewForm.Capture CaptureView.Dot standard) → result ≡ 0 →
        IfSome (S.left source.old) (λ bytes. (text : List ℕ) × IsDotOf standard bytes text
        × Appends (K.written sink.old) (K.written sink.new) text) }
    ensures unfailing { AsksNoInput words.now → (result ≢ 1) × (result ≢ 3) × (result ≢ 6) }
    ensures script { (nodes seed : ℕ) → Asks words.now (ViewForm.Script nodes seed) → result ≡ 0 →
        Appends (K.written sink.old) (K.written sink.new) (made_script nodes seed) }
    ensures itself { (about : About) → Asks words.now (ViewForm.OfItself about) → result ≡ 0 →
        (text : List ℕ) × IsViewOfItself about 0 text
        × Appends (K.written sink.old) (K.written sink.new) text }
{
    one_view();
    if let Some(form) = resets_form(words) {
        return show_resets(alloc, form, source, sink);
    }
    if let Some(form) = dump_form(words) {
        return show_nosy(alloc, form, source, sink);
    }
    answer::<ViewForm, S, K>(alloc, words, source, sink)
}

/// Does what the words after the program's name ask for: reads a capture or a script from `source`,
/// writes the view of it to `sink`, and answers the exit status, which is one of `top_call`.
///
/// | status | comes |
/// |---|---|
/// | 0 | the capture was read to its end and spells a tree, or the script has no fault, and the whole view was written; or, with `script`, the whole script that is made; or all resets of a log or a dump without fault; or the whole help or version |
/// | 1 | the capture was read to its end and is refused, as `busconf read` refuses it; with `packets` all its pairs were written, with the line of the fault and a sentence on it below the pair at fault, with the other forms the line alone, which `json` writes as JSON. Or the script is refused, as `busconf run` refuses it, and the line of its fault was written, which `json-run` and `explain --json` write as JSON. Or something in a log or a dump is at fault, and all that is shown of it was written |
/// | 2 | the words are none of the forms; nothing was read or written |
/// | 3 | the source failed; nothing was written, but of a log or a dump what came before |
/// | 4 | the sink failed; the first bytes of the text were written, or none |
/// | 5 | there was no memory; nothing was written, but of a log or a dump the first bytes of what is shown |
/// | 6 | the input has more than 1,048,576 bytes; nothing was written. Or a log or a dump has more than 9,223,372,036,854,775,807 bytes |
///
/// The words are judged first, without memory; then the input is read to its end; then it is judged;
/// and only then is anything written. A log and a dump are written as they come. What is said of the
/// input holds where the source tells its bytes. With `script`, `--help`, `-h` and `--version` nothing
/// is read, and neither 1 nor 3 nor 6 comes.
pub fn view_main<S: Source, K: Sink>(
    alloc: Global,
    words: &[String],
    source: &mut S,
    sink: &mut K,
) -> u8
    // The answer to the words and the bytes, which there is, is written, unless another status has
    // its cause. Of a log and a dump, which have no limit of 1,048,576 bytes, that is said below.
    ensures streams { (¬ AsksLog words.now) → KeepsStreams
        S.left S.faults K.written K.faults K.surely_takes (AsksNoInput words.now)
        (Answers words.now) result source.old source.new sink.old sink.new }
    ensures no_form { (result ≡ 2) ↔ (¬ IsForm words.now) }

    // With `packets`, `tree`, `dot` and `json` it is that view of the capture by the standard, or of
    // its fault.
    ensures packets { (standard : Standard) →
        Asks words.now (ViewForm.Capture CaptureView.Packets standard) →
        IsWritten (IsCaptureView CaptureView.Packets standard)
        result (S.left source.old) (K.written sink.old) (K.written sink.new) }
    ensures tree { (standard : Standard) →
        Asks words.now (ViewForm.Capture CaptureView.Tree standard) →
        IsWritten (IsCaptureView CaptureView.Tree standard)
        result (S.left source.old) (K.written sink.old) (K.written sink.new) }
    ensures dot { (standard : Standard) →
        Asks words.now (ViewForm.Capture CaptureView.Dot standard) →
        IsWritten (IsCaptureView CaptureView.Dot standard)
        result (S.left source.old) (K.written sink.old) (K.written sink.new) }
    ensures json { (standard : Standard) →
        Asks words.now (ViewForm.Capture CaptureView.Json standard) →
        IsWritten (IsCaptureView CaptureView.Json standard)
        result (S.left source.old) (K.written sink.old) (K.written sink.new) }

    // With `trace` it is the trace of the script, with `waves` its dump, with `dot-run` the graph of its
    // last report, and with `explain` what is said of its faults, or the explanation of the script's
    // fault; and with `json-run` the lines of its reports, or that of its fault.
    ensures trace { Asks words.now ViewForm.Trace → IsWritten IsTraceView
        result (S.left source.old) (K.written sink.old) (K.written sink.new) }
    ensures waves { Asks words.now ViewForm.Waves → IsWritten IsWavesView
        result (S.left source.old) (K.written sink.old) (K.written sink.new) }
    ensures dot_run { Asks words.now ViewForm.DotRun → IsWritten IsGraphView
        result (S.left source.old) (K.written sink.old) (K.written sink.new) }
    ensures json_run { Asks words.now ViewForm.JsonRun → IsWritten IsReportsView
        result (S.left source.old) (K.written sink.old) (K.written sink.new) }
    ensures explain { (form : ExplainForm) → Asks words.now (ViewForm.Explain form) →
        IsWritten (IsExplainView form)
        result (S.left source.old) (K.written sink.old) (K.written sink.new) }

    // With `capture` it is the capture of the list of a script's node, which `busconf read` reads as
    // the tree that the script's last command reports, or the line of the fault.
    ensures capture { (name : List ℕ) → Asks words.now (ViewForm.ListOf name) →
        IsWritten (AnswersCapture name)
        result (S.left source.old) (K.written sink.old) (K.written sink.new) }

    // With `resets` and `nosy` it is what is shown of the log or the dump in the form, while it comes: as
    // text, or with `--json` as lines of JSON.
    // A log is read to its end, and a dump up to a record with a length that can't be.
    ensures resets { (form : LogForm) → Asks words.now (ViewForm.Resets form) →
        ShowsAsItComes S.left S.faults K.written K.faults K.surely_takes
        ((result ≡ 0) ⊎ (result ≡ 1)) (IsLogView form) (IsLogBegun form)
        result source.old source.new sink.old sink.new }
    ensures nosy { (form : LogForm) → Asks words.now (ViewForm.Nosy form) →
        ShowsAsItComes S.left S.faults K.written K.faults K.surely_takes
        (result ≡ 0) (IsDumpView form) (IsBegun form)
        result source.old source.new sink.old sink.new }

    // With `json`, `json-run`, `explain --json`, `resets --json` and `nosy --json` it is lines of JSON
    // (RFC 8259), each of which is read back as a value: those of `json-run` as the values of the script's reports.
    ensures json_lines { AsksJson words.now → (result ≡ 0) ⊎ (result ≡ 1) →
        WritesJsonLines (K.written sink.old) (K.written sink.new) }
    ensures reports { Asks words.now ViewForm.JsonRun → result ≡ 0 →
        IfSome (S.left source.old) (λ bytes. (text : List ℕ) × AreReadBack bytes text
        × Appends (K.written sink.old) (K.written sink.new) text) }

    // With `dot` it is, at status 0, a graph by the grammar of DOT, which Graphviz reads, of the tree that
    // the capture spells: with a node for each node and an edge for each cable, and no others.
    ensures dot_graph { (standard : Standard) →
        Asks words.now (ViewForm.Capture CaptureView.Dot standard) → result ≡ 0 →
        IfSome (S.left source.old) (λ bytes. (text : List ℕ) × IsDotOf standard bytes text
        × Appends (K.written sink.old) (K.written sink.new) text) }

    // With `dot-run` it is, at status 0, such a graph of the report at the end of the script's run: with a
    // node for each node of the bus and an edge for each of its cables, and no others.
    ensures dot_run_graph { Asks words.now ViewForm.DotRun → result ≡ 0 →
        IfSome (S.left source.old) (λ bytes. (text : List ℕ) × IsScriptDot bytes text
        × Appends (K.written sink.old) (K.written sink.new) text) }

    // With `waves` it is, at status 0, a dump that shows the script's run: read as a Value Change Dump up to
    // each moment, it gives to each variable of a node and of a port what the world shows then.
    ensures waves_shown { Asks words.now ViewForm.Waves → result ≡ 0 →
        IfSome (S.left source.old) (λ bytes. (text : List ℕ) × ShowsItsRun bytes text
        × Appends (K.written sink.old) (K.written sink.new) text) }

    // With `trace` it is, at status 0, the lines of events, one behind the other: `trace_event::event_at`
    // finds each of them, asked at the first byte and then always behind the event that it found.
    ensures trace_events { Asks words.now ViewForm.Trace → result ≡ 0 →
        IfSome (S.left source.old) (λ bytes. (text : List ℕ) × IsOfEvents text
        × Appends (K.written sink.old) (K.written sink.new) text) }

    // With `script` there is no fault, and what is written at status 0 is the script that is made for
    // the nodes and the seed. What `busconf run` answers to it has no fault, and `busconf make` writes
    // its summary. With `--help` and `-h` it is the help, and with `--version` the version.
    ensures unfailing { AsksNoInput words.now → (result ≢ 1) × (result ≢ 3) × (result ≢ 6) }
    ensures script { (nodes seed : ℕ) → Asks words.now (ViewForm.Script nodes seed) → result ≡ 0 →
        (text : List ℕ) × IsSummedScript nodes seed text
        × Appends (K.written sink.old) (K.written sink.new) text }
    ensures itself { (about : About) → Asks words.now (ViewForm.OfItself about) → result ≡ 0 →
        (text : List ℕ) × IsViewOfItself about 0 text
        × Appends (K.written sink.old) (K.written sink.new) text }
{
    make_sums_up_the_script();
    captures_are_of_reports();
    traces_are_of_events();
    pictures_are_dot();
    dumps_show_the_run();
    view_asked(alloc, words, source, sink)
}
