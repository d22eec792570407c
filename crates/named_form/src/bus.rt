//! What is written of a capture and a file of names.
ghost use Rattle.std.specs.Prelude.{◌≡◌, ◌≤◌, length, IfOk};
ghost use Rattle.named_form.specs.declared.form.NamedForm.{NamedForm};
ghost use Rattle.named_form.specs.Shown.{IsBare, IsNamed, IsOfReading, IsShown};

use crate::file::fault_of;
use crate::form::NamedForm;
use crate::mentions::with_names;
use crate::outcome::Outcome;
use capture_reading::{CaptureFault, fault_line};
use diff_form::reading_of;
use std::alloc::Global;
use topology_stack::{BusTree, OutOfMemory};
use view_text::{tree_drawing, tree_graph};

/// What is written of a capture and a file of names, and what they come to.
#[derive(Debug, Drop)]
pub(crate) struct Shown {
    pub(crate) text: Vec<u8>,
    pub(crate) outcome: Outcome,
}

/// What is written of a bus without names.
fn bare_text(alloc: Global, form: NamedForm, tree: &BusTree) -> Result<Vec<u8>, OutOfMemory>
    ensures { IfOk result (λ text. IsBare form tree.now text.items) }
{
    match form {
        NamedForm::Tree(_) => tree_drawing(alloc, tree),
        NamedForm::Dot(_) => tree_graph(alloc, tree),
    }
}

/// What is written of a bus with the names of a file.
fn named_text(
    alloc: Global,
    form: NamedForm,
    file: &[u8],
    tree: &BusTree,
) -> Result<Vec<u8>, OutOfMemory>
    ensures { IfOk result (λ text. IsNamed form file.now tree.now text.items) }
{
    let bare = bare_text(alloc, form, tree)?;
    with_names(alloc, file, &bare)
}

/// What is written of a capture that is read so.
fn of_reading(
    alloc: Global,
    form: NamedForm,
    file: &[u8],
    reading: Result<BusTree, CaptureFault>,
) -> Result<Shown, OutOfMemory>
    ensures { IfOk result (λ shown.
        IsOfReading form file.now reading shown.text.items shown.outcome) }
{
    match reading {
        Ok(tree) => Ok(Shown {
            text: named_text(alloc, form, file, &tree)?,
            outcome: Outcome::Shown,
        }),
        Err(fault) => Ok(Shown {
            text: Vec::from_slice(alloc, fault_line(fault).as_bytes())?,
            outcome: Outcome::Refused,
        }),
    }
}

/// What is written of a capture and a file of names.
pub(crate) fn shown_of(
    alloc: Global,
    form: NamedForm,
    file: &[u8],
    bytes: &[u8],
) -> Result<Shown, OutOfMemory>
    requires { length file.now ≤ 1048576 }
    ensures { IfOk result (λ shown.
        IsShown form file.now bytes.now shown.text.items shown.outcome) }
{
    let reading = reading_of(alloc, form.standard(), bytes)?;
    match fault_of(file) {
        Some(fault) => Ok(Shown {
            text: Vec::new(alloc),
            outcome: Outcome::Misnamed(fault),
        }),
        None => of_reading(alloc, form, file, reading),
    }
}
