//! What is shown of a line of the log.
ghost use Rattle.std.specs.Prelude.{◌≡◌, ◌==◌, [], false, IfOk};
ghost use Rattle.std.specs.Option.{option_copied};
ghost use Rattle.bus_json.specs.Lines.{AreJsonLines};
ghost use Rattle.reset_log.specs.codings.InJson.{IfJson};
ghost use Rattle.reset_log.specs.Noted.{last_of, waits_of, ended};
ghost use Rattle.reset_log.specs.Notes.{noted};
ghost use Rattle.reset_log.specs.Shown.{IsJudged, unjudged_text, lacking_text, garbled_text, lost_text, told_text, totals_text, IsResetShown, IsPendingShown, IsWholeShown, IsBegunShown, IsPacketShown, IsLineShown};

use crate::cards::{Known, compared, is_repeated};
use crate::heads::{
    last_line, last_lines, put_garbled, put_head, put_lacking, put_lost, put_told, put_unjudged,
};
use crate::notes::{Notes, Pending};
use crate::values::{
    garbled_line, lacking_line, lost_line, reset_line, told_line, totals_lines, unjudged_line,
};
use log_line::{Begun, LogLine, Reset, line_of};
use reset_list::{ListShown, LogForm, show_list, show_short};
use std::alloc::{AllocError, Global};

/// What is shown of a line, and whether it is at fault.
#[derive(Debug, Drop)]
pub(crate) struct Shown {
    pub(crate) text: Vec<u8>,
    pub(crate) bad: bool,
}

/// What is shown in a form of a reset that is judged, and the tree that its list is heard as.
fn show_judged(
    alloc: Global,
    form: LogForm,
    number: u64,
    before: Option<&Known>,
    reset: &Reset,
) -> Result<ListShown, AllocError>
    ensures judged { IfOk result (λ shown. IsJudged form number (option_copied before.entry)
        reset.now shown.text.items shown.tree) }
    ensures json { IfOk result (λ shown. IfJson form (AreJsonLines shown.text.items)) }
{
    match form {
        LogForm::Text(standard) => {
            let old = compared(before, reset);
            let list = reset.list.as_slice();
            let mut head = Vec::new(alloc);
            put_head(&mut head, number, before, reset)?;
            let shown = show_list(alloc, standard, reset.origin, &head, old, list)?;
            Ok(shown)
        }
        LogForm::Short(standard) => {
            let list = reset.list.as_slice();
            let mut head = Vec::new(alloc);
            put_head(&mut head, number, before, reset)?;
            let shown = show_short(alloc, standard, reset.origin, &head, list)?;
            Ok(shown)
        }
        LogForm::Json(standard) => reset_line(alloc, standard, number, before, reset),
    }
}

/// What is shown in a form of a reset at which the controller failed.
fn unjudged_text(
    alloc: Global,
    form: LogForm,
    number: u64,
    before: Option<&Known>,
    reset: &Reset,
) -> Result<Vec<u8>, AllocError>
    ensures text { IfOk result (λ text. text.items
        ≡ unjudged_text form number (option_copied before.entry) reset.now) }
    ensures json { IfOk result (λ text. IfJson form (AreJsonLines text.items)) }
{
    match form {
        LogForm::Text(_) | LogForm::Short(_) => {
            let mut text = Vec::new(alloc);
            put_unjudged(&mut text, number, before, reset)?;
            Ok(text)
        }
        LogForm::Json(_) => unjudged_line(alloc, number, before, reset),
    }
}

/// What is shown in a form of a reset of which the log lacks so many packets.
fn lacking_text(
    alloc: Global,
    form: LogForm,
    number: u64,
    before: Option<&Known>,
    reset: &Reset,
    lacks: u32,
) -> Result<Vec<u8>, AllocError>
    ensures text { IfOk result (λ text. text.items
        ≡ lacking_text form number (option_copied before.entry) reset.now lacks) }
    ensures json { IfOk result (λ text. IfJson form (AreJsonLines text.items)) }
{
    match form {
        LogForm::Text(_) | LogForm::Short(_) => {
            let mut text = Vec::new(alloc);
            put_lacking(&mut text, number, before, reset, lacks)?;
            Ok(text)
        }
        LogForm::Json(_) => lacking_line(alloc, number, before, reset, lacks),
    }
}

/// What is shown in a form of a garbled event.
fn garbled_text(alloc: Global, form: LogForm, number: u64) -> Result<Vec<u8>, AllocError>
    ensures text { IfOk result (λ text. text.items ≡ garbled_text form number) }
    ensures json { IfOk result (λ text. IfJson form (AreJsonLines text.items)) }
{
    match form {
        LogForm::Text(_) | LogForm::Short(_) => {
            let mut text = Vec::new(alloc);
            put_garbled(&mut text, number)?;
            Ok(text)
        }
        LogForm::Json(_) => garbled_line(alloc, number),
    }
}

/// What is shown in a form of events that were lost.
fn lost_text(alloc: Global, form: LogForm, number: u64) -> Result<Vec<u8>, AllocError>
    ensures text { IfOk result (λ text. text.items ≡ lost_text form number) }
    ensures json { IfOk result (λ text. IfJson form (AreJsonLines text.items)) }
{
    match form {
        LogForm::Text(_) | LogForm::Short(_) => {
            let mut text = Vec::new(alloc);
            put_lost(&mut text, number)?;
            Ok(text)
        }
        LogForm::Json(_) => lost_line(alloc, number),
    }
}

/// What is shown in a form of what the kernel says, and when.
fn told_text(
    alloc: Global,
    form: LogForm,
    number: u64,
    time: Option<u64>,
    words: &[u8],
) -> Result<Vec<u8>, AllocError>
    ensures text { IfOk result (λ text. text.items ≡ told_text form number time words.now) }
    ensures json { IfOk result (λ text. IfJson form (AreJsonLines text.items)) }
{
    match form {
        LogForm::Text(_) | LogForm::Short(_) => {
            let mut text = Vec::new(alloc);
            put_told(&mut text, number, time, words)?;
            Ok(text)
        }
        LogForm::Json(_) => told_line(alloc, number, time, words),
    }
}

/// What is shown in a form behind the last line of a log.
pub(crate) fn totals_text(
    alloc: Global,
    form: LogForm,
    notes: &Notes,
) -> Result<Vec<u8>, AllocError>
    ensures text { IfOk result (λ text. text.items ≡ totals_text form (noted notes.now)) }
    ensures json { IfOk result (λ text. IfJson form (AreJsonLines text.items)) }
{
    match form {
        LogForm::Text(_) => last_line(alloc, notes),
        LogForm::Short(_) => last_lines(alloc, notes),
        LogForm::Json(_) => totals_lines(alloc, notes),
    }
}

/// Nothing is shown, and nothing is at fault.
fn nothing(alloc: Global, form: LogForm) -> Shown
    ensures text { result.text.items ≡ [] }
    ensures bad { result.bad ≡ false }
    ensures json { IfJson form (AreJsonLines result.text.items) }
{
    Shown {
        text: Vec::new(alloc),
        bad: false,
    }
}

/// Shows a reset of which the log lacks so many packets, and notes it.
fn show_reset(
    alloc: Global,
    form: LogForm,
    notes: &mut Notes,
    number: u64,
    lacks: u32,
    reset: &Reset,
) -> Result<Shown, AllocError>
    ensures shown { IfOk result (λ shown. IsResetShown form number lacks
        (last_of reset.now.card notes.old.cards) (noted notes.old) reset.now
        shown.text.items shown.bad (noted notes.new)) }
    ensures json { IfOk result (λ shown. IfJson form (AreJsonLines shown.text.items)) }
{
    let before = notes.cards.last_of(reset.card);
    if is_repeated(before, reset) {
        return Ok(nothing(alloc, form));
    }
    if reset.is_error {
        let text = unjudged_text(alloc, form, number, before, reset)?;
        notes.keep(alloc, form, reset, None, false)?;
        return Ok(Shown { text, bad: false });
    }
    if lacks != 0 {
        let text = lacking_text(alloc, form, number, before, reset, lacks)?;
        notes.keep(alloc, form, reset, None, false)?;
        return Ok(Shown { text, bad: false });
    }
    let ListShown { text, tree } = show_judged(alloc, form, number, before, reset)?;
    let bad = tree.is_none();
    notes.keep(alloc, form, reset, tree, bad)?;
    Ok(Shown { text, bad })
}

/// Shows a reset that waited for its packets, if one did.
fn show_pending(
    alloc: Global,
    form: LogForm,
    notes: &mut Notes,
    pending: Option<Pending>,
) -> Result<Shown, AllocError>
    ensures shown { IfOk result (λ shown. IsPendingShown form pending (noted notes.old)
        shown.text.items shown.bad (noted notes.new)) }
    ensures json { IfOk result (λ shown. IfJson form (AreJsonLines shown.text.items)) }
{
    match pending {
        Some(
            Pending {
                number,
                left,
                reset,
            },
        ) => show_reset(alloc, form, notes, number, left, &reset),
        None => Ok(nothing(alloc, form)),
    }
}

/// Shows a reset if none of its packets is still to come, and else lets it wait for them.
fn show_whole(
    alloc: Global,
    form: LogForm,
    notes: &mut Notes,
    pending: Pending,
) -> Result<Shown, AllocError>
    ensures shown { IfOk result (λ shown. IsWholeShown form (pending.left == 0) pending
        (noted notes.old) shown.text.items shown.bad (noted notes.new)) }
    ensures json { IfOk result (λ shown. IfJson form (AreJsonLines shown.text.items)) }
{
    if pending.left == 0 {
        notes.end(pending.reset.card);
        return show_pending(alloc, form, notes, Some(pending));
    }
    notes.wait(pending)?;
    Ok(nothing(alloc, form))
}

/// Shows the reset of a card that waited for its packets, and lets another one wait.
fn show_begun(
    alloc: Global,
    form: LogForm,
    notes: &mut Notes,
    number: u64,
    begun: Begun,
) -> Result<Shown, AllocError>
    ensures shown { IfOk result (λ shown. IsBegunShown form number (noted notes.old) begun
        shown.text.items shown.bad (noted notes.new)) }
    ensures json { IfOk result (λ shown. IfJson form (AreJsonLines shown.text.items)) }
{
    let before = notes.end(begun.card);
    let Shown { mut text, bad } = show_pending(alloc, form, notes, before)?;
    let second = show_whole(alloc, form, notes, Pending::new(alloc, number, begun))?;
    text.extend_from_slice(&second.text)?;
    Ok(Shown {
        text,
        bad: bad || second.bad,
    })
}

/// A packet is of a reset that waited for it, if one did. Shows the reset if it is the last one.
fn show_taken(
    alloc: Global,
    form: LogForm,
    notes: &mut Notes,
    waits: Option<Pending>,
    quad: u32,
) -> Result<Shown, AllocError>
    ensures shown { IfOk result (λ shown. IsPacketShown form waits quad (noted notes.old)
        shown.text.items shown.bad (noted notes.new)) }
    ensures json { IfOk result (λ shown. IfJson form (AreJsonLines shown.text.items)) }
{
    match waits {
        Some(mut pending) => {
            pending.push(quad)?;
            show_whole(alloc, form, notes, pending)
        }
        None => Ok(nothing(alloc, form)),
    }
}

/// Takes a packet of a card, and shows its reset if it is the last one.
fn show_packet(
    alloc: Global,
    form: LogForm,
    notes: &mut Notes,
    card: u64,
    quad: u32,
) -> Result<Shown, AllocError>
    ensures shown { IfOk result (λ shown. IsPacketShown form (waits_of card (noted notes.old))
        quad (ended card (noted notes.old)) shown.text.items shown.bad (noted notes.new)) }
    ensures json { IfOk result (λ shown. IfJson form (AreJsonLines shown.text.items)) }
{
    let waits = notes.end(card);
    show_taken(alloc, form, notes, waits, quad)
}

/// What is shown of the line with this number, which is counted from 1. A reset is noted.
pub(crate) fn show_line(
    alloc: Global,
    form: LogForm,
    notes: &mut Notes,
    number: u64,
    line: &[u8],
) -> Result<Shown, AllocError>
    ensures shown { IfOk result (λ shown. IsLineShown form number (noted notes.old) line.now
        shown.text.items shown.bad (noted notes.new)) }
    ensures json { IfOk result (λ shown. IfJson form (AreJsonLines shown.text.items)) }
{
    match line_of(alloc, line)? {
        LogLine::Other => Ok(nothing(alloc, form)),
        LogLine::Lost => {
            let text = lost_text(alloc, form, number)?;
            notes.forget();
            Ok(Shown { text, bad: false })
        }
        LogLine::Said { time, text } => {
            let text = told_text(alloc, form, number, time, text.as_slice())?;
            Ok(Shown { text, bad: false })
        }
        LogLine::Begins(begun) => show_begun(alloc, form, notes, number, begun),
        LogLine::Packet { card, quad } => show_packet(alloc, form, notes, card, quad),
        LogLine::Garbled => {
            let text = garbled_text(alloc, form, number)?;
            Ok(Shown { text, bad: true })
        }
        LogLine::OfReset(reset) => show_reset(alloc, form, notes, number, 0, &reset),
    }
}
