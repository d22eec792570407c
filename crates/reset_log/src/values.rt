//! What is shown of the resets of a log for programs: lines of JSON.
ghost use Rattle.std.specs.Prelude.{◌≡◌, ◌++◌, ◌∷◌, [], map, codes, Some, IfOk, OnOk};
ghost use Rattle.std.specs.Option.{option_copied};
ghost use Rattle.json.specs.Token.{string};
ghost use Rattle.json.specs.Tree.{json_tokens, members_tokens};
ghost use Rattle.bus_json.specs.Text.{json_line};
ghost use Rattle.bus_json.specs.Lines.{IsJsonLine, AreJsonLines};
ghost use Rattle.reset_log.specs.Noted.{since, missing};
ghost use Rattle.reset_log.specs.Notes.{noted};
ghost use Rattle.reset_log.specs.codings.Tokens.{name_tokens, known_tokens, head_tokens};
ghost use Rattle.reset_log.specs.Json.{card_value, ascii, IsResetTold, unjudged_value, lacking_value, cut_off_value, garbled_value, lost_value, told_value, most_members, totals_value, cut_off_lines, totals_lines};

use crate::cards::{Known, missing, since};
use crate::device::put_device;
use crate::notes::{Notes, Pending};
use bus_json::JsonText;
use log_line::{DEVICES, Reset};
use reset_list::{ListShown, Tally, put_list};
use self_id::Standard;
use std::alloc::{AllocError, Global};
use std::collections::BTreeMap;
use std::str;

/// A byte, or a question mark where it isn't ASCII.
fn ascii(byte: u8) -> u8
    ensures { result ≡ ascii byte }
{
    if byte < 128 { byte } else { b'?' }
}

/// Bytes with a question mark for each that isn't ASCII.
fn ascii_of(alloc: Global, bytes: &[u8]) -> Result<Vec<u8>, AllocError>
    ensures { IfOk result (λ text. text.items ≡ map ascii bytes.now) }
{
    let mut text = Vec::new(alloc);
    let mut rest = bytes;
    while let [byte, behind @ ..] = rest {
        text.push(ascii(*byte))?;
        rest = behind;
    }
    Ok(text)
}

/// Writes bytes as a string, with a question mark for each that isn't ASCII.
fn put_ascii(alloc: Global, out: &mut JsonText, bytes: &[u8]) -> Result<(), AllocError>
    ensures { OnOk result (out.new ≡ out.old ++ string (map ascii bytes.now) ∷ []) }
{
    let text = ascii_of(alloc, bytes)?;
    match str::from_utf8(&text) {
        Ok(text) => out.string(text),
        Err(_) => unreachable!(),
    }
}

/// Writes a card: its number, or the name of its device.
fn put_card(alloc: Global, out: &mut JsonText, card: u64) -> Result<(), AllocError>
    ensures { OnOk result (out.new ≡ out.old ++ json_tokens (card_value card)) }
{
    if card < DEVICES {
        return out.number(card);
    }
    let mut name = Vec::new(alloc);
    put_device(&mut name, card - DEVICES)?;
    match str::from_utf8(&name) {
        Ok(name) => out.string(name),
        Err(_) => unreachable!(),
    }
}

/// Writes which reset an object is of.
fn put_name(alloc: Global, out: &mut JsonText, number: u64, reset: &Reset) -> Result<(), AllocError>
    ensures { OnOk result (out.new ≡ out.old ++ name_tokens number reset.now) }
{
    out.number_member("line", number)?;
    out.key("card")?;
    put_card(alloc, out, reset.card)?;
    out.number_member("generation", u64::from(reset.generation))?;
    Ok(())
}

/// Writes microseconds, where they are known.
fn put_micros(out: &mut JsonText, name: &str, micros: Option<u64>) -> Result<(), AllocError>
    ensures { OnOk result (out.new ≡ out.old ++ known_tokens name.now micros) }
{
    match micros {
        Some(micros) => out.number_member(name, micros),
        None => Ok(()),
    }
}

/// Writes the node that the card itself is, where it is known.
fn put_local(out: &mut JsonText, local: Option<u8>) -> Result<(), AllocError>
    ensures { OnOk result (out.new ≡ out.old ++ known_tokens (codes "local") local) }
{
    match local {
        Some(id) => out.number_member("local", u64::from(id)),
        None => Ok(()),
    }
}

/// Writes which reset an object is of, when it was, how long the card's reset before is past, how many are
/// missing between, and which node the card itself is.
fn put_head(
    alloc: Global,
    out: &mut JsonText,
    number: u64,
    before: Option<&Known>,
    reset: &Reset,
) -> Result<(), AllocError>
    ensures { OnOk result (out.new
        ≡ out.old ++ head_tokens number (option_copied before.entry) reset.now) }
{
    let after = since(before, reset);
    let missing = missing(before, reset);
    put_name(alloc, out, number, reset)?;
    put_micros(out, "time", reset.time)?;
    put_micros(out, "after", after)?;
    out.number_member("missing", u64::from(missing))?;
    put_local(out, reset.local)?;
    Ok(())
}

/// The line of a reset, and the tree that its list is heard as.
pub(crate) fn reset_line(
    alloc: Global,
    standard: Standard,
    number: u64,
    before: Option<&Known>,
    reset: &Reset,
) -> Result<ListShown, AllocError>
    ensures told { IfOk result (λ shown. IsResetTold standard number (option_copied before.entry)
        reset.now shown.text.items shown.tree) }
    ensures json { IfOk result (λ shown. IsJsonLine shown.text.items) }
{
    let mut out = JsonText::new(alloc);
    out.open_schema()?;
    put_head(alloc, &mut out, number, before, reset)?;
    let tree = put_list(
        alloc,
        &mut out,
        standard,
        reset.origin,
        reset.list.as_slice(),
    )?;
    let text = out.into_line()?;
    Ok(ListShown { text, tree })
}

/// The line of a reset at which the controller failed.
pub(crate) fn unjudged_line(
    alloc: Global,
    number: u64,
    before: Option<&Known>,
    reset: &Reset,
) -> Result<Vec<u8>, AllocError>
    ensures line { IfOk result (λ line. line.items
        ≡ json_line (unjudged_value number (option_copied before.entry) reset.now)) }
    ensures json { IfOk result (λ line. IsJsonLine line.items) }
{
    let mut out = JsonText::new(alloc);
    out.open_schema()?;
    put_head(alloc, &mut out, number, before, reset)?;
    out.truth_member("is_error", true)?;
    out.close_object()?;
    let line = out.into_line()?;
    Ok(line)
}

/// The line of a reset of which the log lacks so many packets.
pub(crate) fn lacking_line(
    alloc: Global,
    number: u64,
    before: Option<&Known>,
    reset: &Reset,
    lacks: u32,
) -> Result<Vec<u8>, AllocError>
    ensures line { IfOk result (λ line. line.items
        ≡ json_line (lacking_value number (option_copied before.entry) reset.now lacks)) }
    ensures json { IfOk result (λ line. IsJsonLine line.items) }
{
    let mut out = JsonText::new(alloc);
    out.open_schema()?;
    put_head(alloc, &mut out, number, before, reset)?;
    out.number_member("lacks", u64::from(lacks))?;
    out.close_object()?;
    let line = out.into_line()?;
    Ok(line)
}

/// The line of a garbled event.
pub(crate) fn garbled_line(alloc: Global, number: u64) -> Result<Vec<u8>, AllocError>
    ensures line { IfOk result (λ line. line.items ≡ json_line (garbled_value number)) }
    ensures json { IfOk result (λ line. IsJsonLine line.items) }
{
    let mut out = JsonText::new(alloc);
    out.open_schema()?;
    out.number_member("line", number)?;
    out.truth_member("garbled", true)?;
    out.close_object()?;
    let line = out.into_line()?;
    Ok(line)
}

/// The line of events that were lost.
pub(crate) fn lost_line(alloc: Global, number: u64) -> Result<Vec<u8>, AllocError>
    ensures line { IfOk result (λ line. line.items ≡ json_line (lost_value number)) }
    ensures json { IfOk result (λ line. IsJsonLine line.items) }
{
    let mut out = JsonText::new(alloc);
    out.open_schema()?;
    out.number_member("line", number)?;
    out.truth_member("lost", true)?;
    out.close_object()?;
    let line = out.into_line()?;
    Ok(line)
}

/// The line of what the kernel says, and when.
pub(crate) fn told_line(
    alloc: Global,
    number: u64,
    time: Option<u64>,
    words: &[u8],
) -> Result<Vec<u8>, AllocError>
    ensures line { IfOk result (λ line. line.items ≡ json_line (told_value number time words.now)) }
    ensures json { IfOk result (λ line. IsJsonLine line.items) }
{
    let mut out = JsonText::new(alloc);
    out.open_schema()?;
    out.number_member("line", number)?;
    put_micros(&mut out, "time", time)?;
    out.key("kernel")?;
    put_ascii(alloc, &mut out, words)?;
    out.close_object()?;
    let line = out.into_line()?;
    Ok(line)
}

/// The line of a reset whose last packets the log doesn't have.
fn cut_off_line(alloc: Global, pending: &Pending) -> Result<Vec<u8>, AllocError>
    ensures line { IfOk result (λ line. line.items ≡ json_line (cut_off_value pending.now)) }
    ensures json { IfOk result (λ line. IsJsonLine line.items) }
{
    let mut out = JsonText::new(alloc);
    out.open_schema()?;
    put_name(alloc, &mut out, pending.number, &pending.reset)?;
    out.number_member("lacks", u64::from(pending.left))?;
    out.close_object()?;
    let line = out.into_line()?;
    Ok(line)
}

/// Appends that line.
fn put_cut_off_line(alloc: Global, out: &mut Vec<u8>, pending: &Pending) -> Result<(), AllocError>
    ensures line { OnOk result (out.new.items
        ≡ out.old.items ++ json_line (cut_off_value pending.now)) }
    ensures json { OnOk result (IsJsonLine (json_line (cut_off_value pending.now))) }
{
    let line = cut_off_line(alloc, pending)?;
    out.extend_from_slice(&line)?;
    Ok(())
}

/// The same for each reset that waits for its packets.
fn cut_off_lines(alloc: Global, pending: &BTreeMap<u64, Pending>) -> Result<Vec<u8>, AllocError>
    ensures lines { IfOk result (λ text. text.items ≡ cut_off_lines pending.now.entries) }
    ensures json { IfOk result (λ text. AreJsonLines text.items) }
{
    let mut text = Vec::new(alloc);
    for (_, pending) in pending.iter() {
        put_cut_off_line(alloc, &mut text, pending)?;
    }
    Ok(text)
}

/// Writes how many resets a node began, and ends the object.
fn put_begun(alloc: Global, out: &mut JsonText, tally: Tally) -> Result<(), AllocError>
    ensures { OnOk result (out.new ≡ out.old ++ members_tokens (most_members (Some tally))) }
{
    out.key("most")?;
    out.open_object()?;
    out.key("card")?;
    put_card(alloc, out, tally.card)?;
    out.number_member("node", u64::from(tally.node))?;
    out.number_member("count", tally.count)?;
    out.close_object()?;
    out.close_object()?;
    Ok(())
}

/// The same of who began most, where a node began one.
fn put_most(alloc: Global, out: &mut JsonText, tally: Option<Tally>) -> Result<(), AllocError>
    ensures { OnOk result (out.new ≡ out.old ++ members_tokens (most_members tally)) }
{
    match tally {
        Some(tally) => put_begun(alloc, out, tally),
        None => out.close_object(),
    }
}

/// The line of what was counted in all.
fn totals_line(alloc: Global, notes: &Notes) -> Result<Vec<u8>, AllocError>
    ensures line { IfOk result (λ line. line.items ≡ json_line (totals_value (noted notes.now))) }
    ensures json { IfOk result (λ line. IsJsonLine line.items) }
{
    let mut out = JsonText::new(alloc);
    out.open_schema()?;
    out.key("totals")?;
    out.open_object()?;
    out.number_member("resets", notes.counts.resets)?;
    out.number_member("refused", notes.counts.refused)?;
    out.number_member("cards", notes.cards.len() as u64)?;
    put_most(alloc, &mut out, notes.tallies.most())?;
    out.close_object()?;
    let line = out.into_line()?;
    Ok(line)
}

/// The last lines of a log.
pub(crate) fn totals_lines(alloc: Global, notes: &Notes) -> Result<Vec<u8>, AllocError>
    ensures lines { IfOk result (λ text. text.items ≡ totals_lines (noted notes.now)) }
    ensures json { IfOk result (λ text. AreJsonLines text.items) }
{
    let mut text = cut_off_lines(alloc, &notes.pending)?;
    let line = totals_line(alloc, notes)?;
    text.extend_from_slice(&line)?;
    Ok(text)
}
