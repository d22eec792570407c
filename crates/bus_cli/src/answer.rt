//! The answer to what was read.
ghost use Rattle.std.specs.Prelude.{◌≡◌, ℕ, List, Err, IfOk, OnErr};
ghost use Rattle.bus_cli.specs.declared.form.Form.TheVariants.{Capture};
ghost use Rattle.bus_cli.specs.declared.form.CaptureForm.{CaptureForm};
ghost use Rattle.bus_cli.specs.Form.{standard_of};
ghost use Rattle.bus_cli.specs.Answer.{AnswersForm, AnswersOfItself};
ghost use Rattle.bus_cli.specs.codings.Reading.{IsReadAs, IsTextIn, IsNoFault, status_with, text_with};

use crate::form::CaptureForm;
use crate::help::HELP;
use about::{About, about_text};
use capture_reading::{CaptureStop, ShortText, fault_line};
use quad_lanes::OutOfMemory;
use script_text::maps_text;
use std::alloc::Global;
use top_call::{REFUSED, Reply, VALID};
use topology_stack::{BusTree, NameList, tree_text};

/// What is written, and so the status.
#[derive(Drop)]
pub enum Answer {
    /// The text of a tree.
    Valid(Vec<u8>),
    /// The line of a fault.
    Refused(ShortText),
}

impl Reply for Answer {
    ghost status_of = { status_with };

    ghost text_of = { text_with };

    fn status(&self) -> u8 {
        match self {
            Answer::Valid(_) => VALID,
            Answer::Refused(_) => REFUSED,
        }
    }

    fn text(&self) -> &[u8] {
        match self {
            Answer::Valid(text) => text,
            Answer::Refused(line) => line.as_bytes(),
        }
    }
}

/// The text of a tree in a form.
fn shown_text(alloc: Global, form: CaptureForm, tree: &BusTree) -> Result<Vec<u8>, OutOfMemory>
    ensures { IfOk result (λ text. IsTextIn form tree.now text.items) }
{
    match form {
        CaptureForm::Read | CaptureForm::Read95 => tree_text(alloc, tree, &NameList::new(alloc)),
        CaptureForm::Maps => maps_text(alloc, tree, 1),
    }
}

/// The answer where no tree was found. No memory is taken.
fn answer_to_stop(stop: CaptureStop) -> Result<Answer, OutOfMemory>
    ensures answer { IfOk result (λ answer. (form : CaptureForm) (bytes : List ℕ) →
        IsReadAs (standard_of form) bytes (Err stop) →
        AnswersForm (Capture form) bytes (status_with answer) (text_with answer)) }
    ensures memory { OnErr result (IsNoFault (Err stop)) }
{
    match stop {
        CaptureStop::Fault(fault) => Ok(Answer::Refused(fault_line(fault))),
        CaptureStop::Memory(error) => Err(error),
    }
}

/// The answer to a reading in a form. No memory is taken for a fault.
pub(crate) fn answer_to(
    alloc: Global,
    form: CaptureForm,
    reading: Result<BusTree, CaptureStop>,
) -> Result<Answer, OutOfMemory>
    ensures answer { IfOk result (λ answer. (bytes : List ℕ) →
        IsReadAs (standard_of form) bytes reading →
        AnswersForm (Capture form) bytes (status_with answer) (text_with answer)) }
    ensures memory { OnErr result (IsNoFault reading) }
{
    match reading {
        Ok(tree) => Ok(Answer::Valid(shown_text(alloc, form, &tree)?)),
        Err(stop) => answer_to_stop(stop),
    }
}

/// What the program says of itself.
pub(crate) fn answer_of_itself(alloc: Global, about: About) -> Result<Answer, OutOfMemory>
    ensures { IfOk result (λ answer.
        AnswersOfItself about (status_with answer) (text_with answer)) }
{
    Ok(Answer::Valid(about_text(alloc, about, "busconf", HELP)?))
}
