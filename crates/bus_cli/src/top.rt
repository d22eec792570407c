//! The top call.
ghost use Rattle.std.specs.Prelude.{◌≡◌, ◌≢◌, ℕ, ◌≤◌, ◌⊎◌, ◌↔◌, List, IfSome};
ghost use Rattle.std.specs.Io.KnownBytes.{Appends, IsAtEnd};
ghost use Rattle.about.specs.declared.asked.About.{About};
ghost use Rattle.bus_cli.specs.declared.form.CaptureForm.{CaptureForm};
ghost use Rattle.bus_cli.specs.Form.{Asks, AsksNoInput, IsForm};
ghost use Rattle.self_id.specs.declared.standard.Standard.TheVariants.{Ieee1995, Ieee2000};
ghost use Rattle.topology_stack.specs.Tree.{Tree};
ghost use Rattle.capture_reading.specs.Capture.{Spells};
ghost use Rattle.bus_cli.specs.Answer.{AnswersMaps, AnswersRom};
ghost use Rattle.capture_reading.specs.Answer.{AnswersRead};
ghost use Rattle.script_run.specs.Answer.{AnswersRun, AnswersAdvice};
ghost use Rattle.bus_cli.specs.Answer.{AnswersOfItself, Answers};
ghost use Rattle.script_run.specs.Answer.{AnswersMake};
ghost use Rattle.io_edges.specs.Streams.{IsWritten, KeepsStreams};
ghost use Rattle.bus_cli.specs.Cabled.{AnswersCabling, AreEmitted};
ghost use Rattle.bus_cli.specs.CabledBy.{AnswersCablingBy, AreEmittedBy};

use crate::form::Form;
use crate::laws::one_answer;
use capture_reading::one_reading;
use io_edges::{Sink, Source};
use slot_cabling::cablings_show_the_bus_trees;
use std::alloc::Global;
use top_call::answer;
use world_laws::{bus_trees_are_cabled, texts_tell_trees};

/// Does what the words after the program's name ask for: reads the input from `source`, writes the
/// text or the line of the input's fault to `sink`, and answers the exit status.
///
/// | status | comes |
/// |---|---|
/// | 0 | the input was read to its end and is valid, and its whole text was written; or the whole help or version |
/// | 1 | the input was read to its end and isn't valid, and the line of its fault was written |
/// | 2 | the words are none of the forms; nothing was read or written |
/// | 3 | the source failed; nothing was written |
/// | 4 | the sink failed; the first bytes of the text or of the line were written, or none |
/// | 5 | there was no memory; nothing was written; with `read` the input is valid |
/// | 6 | the input has more than 1,048,576 bytes; nothing was written |
///
/// The words are judged first, without memory; then the input is read to its end; then it is
/// judged; and only then is anything written. What is said of the input holds where the source
/// tells its bytes. With `make` nothing is read, and the script that is made is the input; it has no
/// fault, so 1 doesn't come. With `--help`, `-h` and `--version` nothing is read, and neither 1 nor 3
/// nor 6 comes.
///
/// With `run`, the text at status 0 is what the script tells over the one run of its bus. In each
/// report of it, each component is a loop with its core in configuration timeout, or a cable whose
/// ends contend and drew the same coins, or a tree whose list every node has.
///
/// With `advice` the script is run to its end, the cables that are advised for each looped component
/// are pulled, and the bus settles once more. No component is a loop then.
pub fn bus_main<S: Source, K: Sink>(
    alloc: Global,
    words: &[String],
    source: &mut S,
    sink: &mut K,
) -> u8
    // The answer to the words and the bytes, which there is, is written, unless another status has
    // its cause. With `make`, and for what the program says of itself, nothing is read.
    ensures streams { KeepsStreams S.left S.faults K.written K.faults K.surely_takes
        (AsksNoInput words.now) (Answers words.now) result source.old source.new sink.old sink.new }
    ensures no_form { (result ≡ 2) ↔ (¬ IsForm words.now) }

    // With `read` and `read95` it is the tree that the capture spells, or its fault.
    ensures read { Asks words.now (Form.Capture CaptureForm.Read) → IsWritten (AnswersRead Ieee2000)
        result (S.left source.old) (K.written sink.old) (K.written sink.new) }
    ensures read95 { Asks words.now (Form.Capture CaptureForm.Read95) →
        IsWritten (AnswersRead Ieee1995) result
        (S.left source.old) (K.written sink.old) (K.written sink.new) }
    // With `read`, a capture that is accepted is that of the nodes of some cabling, the text is that of
    // the tree that the cabling shows, and no cabling with this capture shows another. The text tells
    // that tree but for what no text has. No capture of a cabling's nodes is refused.
    ensures cabling { Asks words.now (Form.Capture CaptureForm.Read) → IsWritten AnswersCabling
        result (S.left source.old) (K.written sink.old) (K.written sink.new) }
    ensures accepts { Asks words.now (Form.Capture CaptureForm.Read) →
        IfSome (S.left source.old) (λ bytes. AreEmitted bytes → (result ≡ 0) ⊎ (3 ≤ result)) }
    // With `read95` it is the same by 1394-1995, for cablings whose nodes all belong to the tree.
    ensures cabling95 { Asks words.now (Form.Capture CaptureForm.Read95) →
        IsWritten (AnswersCablingBy Ieee1995) result
        (S.left source.old) (K.written sink.old) (K.written sink.new) }
    ensures accepts95 { Asks words.now (Form.Capture CaptureForm.Read95) →
        IfSome (S.left source.old) (λ bytes. AreEmittedBy Ieee1995 bytes →
        (result ≡ 0) ⊎ (3 ≤ result)) }
    // With `maps` it is the maps of that tree, and with `rom` what the ROM says.
    ensures maps { Asks words.now (Form.Capture CaptureForm.Maps) → IsWritten AnswersMaps
        result (S.left source.old) (K.written sink.old) (K.written sink.new) }
    ensures rom { Asks words.now Form.Rom → IsWritten AnswersRom
        result (S.left source.old) (K.written sink.old) (K.written sink.new) }

    // With `run` it is what the commands of the script's run print, and each report among that is
    // the report of a world that comes of power-on: every component is a loop in configuration
    // timeout, one cable whose ends drew 32 equal coins, or one list at every node. That list is one
    // that some cabling emits, and it shows the same tree. Each plan comes out, and each configuration
    // packet that a settling follows next. From line to line the world goes on by events.
    ensures run { Asks words.now Form.Run → IsWritten AnswersRun
        result (S.left source.old) (K.written sink.old) (K.written sink.new) }
    // With `advice` it is the script's advice and such a report, in which no component is a loop.
    ensures advice { Asks words.now Form.Advice → IsWritten AnswersAdvice
        result (S.left source.old) (K.written sink.old) (K.written sink.new) }

    // With `make` the script has no fault, and what is written at status 0 is the summary of what
    // the script prints. With `--help` and `-h` it is the help, and with `--version` the version.
    ensures unfailing { AsksNoInput words.now → (result ≢ 1) × (result ≢ 3) × (result ≢ 6) }
    ensures make { (nodes seed : ℕ) → Asks words.now (Form.Make nodes seed) → result ≡ 0 →
        (text : List ℕ) × AnswersMake nodes seed 0 text
        × Appends (K.written sink.old) (K.written sink.new) text }
    ensures itself { (about : About) → Asks words.now (Form.OfItself about) → result ≡ 0 →
        (text : List ℕ) × AnswersOfItself about 0 text
        × Appends (K.written sink.old) (K.written sink.new) text }

    // With `read`, memory is taken only once the input was read to its end and is valid.
    ensures memory { result ≡ 5 → Asks words.now (Form.Capture CaptureForm.Read) →
        IsAtEnd (S.left source.new)
        × IfSome (S.left source.old) (λ bytes. (t : Tree) × Spells Ieee2000 bytes t) }
{
    one_answer();
    one_reading();
    bus_trees_are_cabled();
    cablings_show_the_bus_trees();
    texts_tell_trees();
    answer::<Form, S, K>(alloc, words, source, sink)
}
