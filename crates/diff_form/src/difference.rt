//! What two captures come to.
ghost use Rattle.std.specs.Prelude.{◌≡◌, IfOk};
ghost use Rattle.diff_form.specs.declared.outcome.Outcome.{Outcome};
ghost use Rattle.diff_form.specs.Difference.{IsReading, shown_changes, IsCompared, IsOfReadings, IsDifference};

use crate::form::DiffForm;
use crate::outcome::{Outcome, outcome_of};
use crate::refused::{shown_refusal, shown_refusals};
use bus_diff::{Change, changes_text, compare};
use capture_reading::{CaptureFault, CaptureStop, read_capture};
use diff_json::changes_line;
use self_id::Standard;
use std::alloc::Global;
use topology_stack::{BusTree, OutOfMemory};

/// What is written of two captures.
#[derive(Debug, Drop)]
pub(crate) struct Difference {
    pub(crate) text: Vec<u8>,
    pub(crate) outcome: Outcome,
}

/// The tree that a capture spells by a standard, or its fault.
pub fn reading_of(
    alloc: Global,
    standard: Standard,
    bytes: &[u8],
) -> Result<Result<BusTree, CaptureFault>, OutOfMemory>
    ensures { IfOk result (λ read. IsReading standard bytes.now read) }
{
    match read_capture(alloc, standard, bytes) {
        Ok(tree) => Ok(Ok(tree)),
        Err(CaptureStop::Fault(fault)) => Ok(Err(fault)),
        Err(CaptureStop::Memory(error)) => Err(error),
    }
}

/// What is written of changes.
fn shown_changes(alloc: Global, form: DiffForm, changes: &[Change]) -> Result<Vec<u8>, OutOfMemory>
    ensures { IfOk result (λ text. text.items ≡ shown_changes form changes.now) }
{
    match form {
        DiffForm::Text(_) => changes_text(alloc, changes),
        DiffForm::Json(_) => changes_line(alloc, changes),
    }
}

/// What differs between two buses.
fn compared(
    alloc: Global,
    form: DiffForm,
    old: &BusTree,
    new: &BusTree,
) -> Result<Difference, OutOfMemory>
    ensures { IfOk result (λ d. IsCompared form old.now new.now d.text.items d.outcome) }
{
    let found = compare(alloc, old, new)?;
    let outcome = outcome_of(&found.changes);
    let text = shown_changes(alloc, form, &found.changes)?;
    Ok(Difference { text, outcome })
}

/// What two captures that are read so come to.
fn of_readings(
    alloc: Global,
    form: DiffForm,
    old_name: &str,
    new_name: &str,
    old: Result<BusTree, CaptureFault>,
    new: Result<BusTree, CaptureFault>,
) -> Result<Difference, OutOfMemory>
    ensures { IfOk result (λ d.
        IsOfReadings form old_name.now new_name.now old new d.text.items d.outcome) }
{
    match (old, new) {
        (Ok(old), Ok(new)) => compared(alloc, form, &old, &new),
        (Err(fault), Ok(_)) => Ok(Difference {
            text: shown_refusal(alloc, form, old_name, fault)?,
            outcome: Outcome::OldRefused,
        }),
        (Ok(_), Err(fault)) => Ok(Difference {
            text: shown_refusal(alloc, form, new_name, fault)?,
            outcome: Outcome::NewRefused,
        }),
        (Err(old), Err(new)) => Ok(Difference {
            text: shown_refusals(alloc, form, old_name, new_name, old, new)?,
            outcome: Outcome::BothRefused,
        }),
    }
}

/// What the captures `old` and `new`, in files of these names, come to in a form.
pub(crate) fn difference_of(
    alloc: Global,
    form: DiffForm,
    old_name: &str,
    old: &[u8],
    new_name: &str,
    new: &[u8],
) -> Result<Difference, OutOfMemory>
    ensures { IfOk result (λ d. IsDifference form
        old_name.now new_name.now old.now new.now d.text.items d.outcome) }
{
    let old_read = reading_of(alloc, form.standard(), old)?;
    let new_read = reading_of(alloc, form.standard(), new)?;
    of_readings(alloc, form, old_name, new_name, old_read, new_read)
}
