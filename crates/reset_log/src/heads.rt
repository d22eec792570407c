//! The first line of what is shown of a reset, and the last line of a log.
ghost use Rattle.std.specs.Prelude.{◌≡◌, ◌++◌, OnOk, IfOk};
ghost use Rattle.std.specs.Option.{option_copied};
ghost use Rattle.reset_log.specs.Texts.{garbled, lost, told, digit, seconds, if_known, if_missing, name, moments, if_local, head, unjudged, begun, most, lacking, cut_off, all_cut_off, shortest_for, port_losses, all_losses, totals};
ghost use Rattle.reset_log.specs.Notes.{noted};

use crate::cards::{Known, missing, since};
use crate::device::put_card;
use crate::notes::{Notes, Pending};
use log_line::Reset;
use reset_list::{Loss, Tally};
use std::alloc::{AllocError, Global};
use std::collections::BTreeMap;
use view_text::put_field;

/// Appends the line of a garbled event.
#[tactic(auto, unfolding(crate::specs::Texts::garbled))]
pub(crate) fn put_garbled(out: &mut Vec<u8>, number: u64) -> Result<(), AllocError>
    ensures { OnOk result (out.new.items ≡ out.old.items ++ garbled number) }
{
    put_field(out, b"line ", number)?;
    out.extend_from_slice(b" garbled\n")?;
    Ok(())
}

/// Appends that events were lost.
#[tactic(auto, unfolding(crate::specs::Texts::lost))]
pub(crate) fn put_lost(out: &mut Vec<u8>, number: u64) -> Result<(), AllocError>
    ensures { OnOk result (out.new.items ≡ out.old.items ++ lost number) }
{
    put_field(out, b"line ", number)?;
    out.extend_from_slice(b" events are lost\n")?;
    Ok(())
}

/// Appends what the kernel says, and when, where that is known.
#[tactic(auto, unfolding(crate::specs::Texts::told))]
pub(crate) fn put_told(
    out: &mut Vec<u8>,
    number: u64,
    time: Option<u64>,
    words: &[u8],
) -> Result<(), AllocError>
    ensures { OnOk result (out.new.items ≡ out.old.items ++ told number time words.now) }
{
    put_field(out, b"line ", number)?;
    put_if_known(out, b" time ", time)?;
    out.extend_from_slice(b" ")?;
    out.extend_from_slice(words)?;
    out.extend_from_slice(b"\n")?;
    Ok(())
}

/// The last digit of a number.
fn digit(number: u64) -> u8
    ensures { result ≡ digit number }
{
    b'0' + (number % 10) as u8
}

/// Appends microseconds as seconds.
#[tactic(auto, unfolding(crate::specs::Texts::seconds))]
fn put_seconds(out: &mut Vec<u8>, word: &[u8], micros: u64) -> Result<(), AllocError>
    ensures { OnOk result (out.new.items ≡ out.old.items ++ seconds word.now micros) }
{
    put_field(out, word, micros / 1_000_000)?;
    let digits = [
        b'.',
        digit(micros / 100_000),
        digit(micros / 10_000),
        digit(micros / 1_000),
        digit(micros / 100),
        digit(micros / 10),
        digit(micros),
    ];
    out.extend_from_slice(&digits)?;
    Ok(())
}

fn put_if_known(out: &mut Vec<u8>, word: &[u8], micros: Option<u64>) -> Result<(), AllocError>
    ensures { OnOk result (out.new.items ≡ out.old.items ++ if_known word.now micros) }
{
    match micros {
        Some(micros) => put_seconds(out, word, micros),
        None => Ok(()),
    }
}

fn put_if_missing(out: &mut Vec<u8>, count: u32) -> Result<(), AllocError>
    ensures { OnOk result (out.new.items ≡ out.old.items ++ if_missing count) }
{
    if count != 0 {
        put_field(out, b" missing ", u64::from(count))?;
    }
    Ok(())
}

/// Appends which reset a text is about.
#[tactic(auto, unfolding(crate::specs::Texts::name))]
fn put_name(out: &mut Vec<u8>, number: u64, reset: &Reset) -> Result<(), AllocError>
    ensures { OnOk result (out.new.items ≡ out.old.items ++ name number reset.now) }
{
    put_field(out, b"line ", number)?;
    put_card(out, b" card ", reset.card)?;
    put_field(out, b" generation ", u64::from(reset.generation))?;
    Ok(())
}

/// Appends when a reset was, how long the card's reset before is past, and how many are missing between.
#[tactic(auto, unfolding(crate::specs::Texts::moments))]
fn put_moments(
    out: &mut Vec<u8>,
    time: Option<u64>,
    after: Option<u64>,
    missing: u32,
) -> Result<(), AllocError>
    ensures { OnOk result (out.new.items ≡ out.old.items ++ moments time after missing) }
{
    put_if_known(out, b" time ", time)?;
    put_if_known(out, b" after ", after)?;
    put_if_missing(out, missing)?;
    Ok(())
}

fn put_if_local(out: &mut Vec<u8>, local: Option<u8>) -> Result<(), AllocError>
    ensures { OnOk result (out.new.items ≡ out.old.items ++ if_local local) }
{
    match local {
        Some(id) => put_field(out, b" local ", u64::from(id)),
        None => Ok(()),
    }
}

/// Appends which reset a text is about, behind the card's reset before.
#[tactic(auto, unfolding(crate::specs::Texts::head))]
pub(crate) fn put_head(
    out: &mut Vec<u8>,
    number: u64,
    before: Option<&Known>,
    reset: &Reset,
) -> Result<(), AllocError>
    ensures { OnOk result (out.new.items
        ≡ out.old.items ++ head number (option_copied before.entry) reset.now) }
{
    let after = since(before, reset);
    let missing = missing(before, reset);
    put_name(out, number, reset)?;
    put_moments(out, reset.time, after, missing)?;
    put_if_local(out, reset.local)?;
    Ok(())
}

/// Appends the line of a reset at which the controller failed.
#[tactic(auto, unfolding(crate::specs::Texts::unjudged))]
pub(crate) fn put_unjudged(
    out: &mut Vec<u8>,
    number: u64,
    before: Option<&Known>,
    reset: &Reset,
) -> Result<(), AllocError>
    ensures { OnOk result (out.new.items
        ≡ out.old.items ++ unjudged number (option_copied before.entry) reset.now) }
{
    put_head(out, number, before, reset)?;
    out.extend_from_slice(b" is_error, not judged\n")?;
    Ok(())
}

/// Appends the line of a reset of which the log lacks so many packets.
#[tactic(auto, unfolding(crate::specs::Texts::lacking))]
pub(crate) fn put_lacking(
    out: &mut Vec<u8>,
    number: u64,
    before: Option<&Known>,
    reset: &Reset,
    lacks: u32,
) -> Result<(), AllocError>
    ensures { OnOk result (out.new.items
        ≡ out.old.items ++ lacking number (option_copied before.entry) reset.now lacks) }
{
    put_head(out, number, before, reset)?;
    put_field(
        out,
        b" not judged, packets missing from the log: ",
        u64::from(lacks),
    )?;
    out.extend_from_slice(b"\n")?;
    Ok(())
}

/// Appends how many resets a node began.
#[tactic(auto, unfolding(crate::specs::Texts::begun))]
fn put_begun(out: &mut Vec<u8>, tally: Tally) -> Result<(), AllocError>
    ensures { OnOk result (out.new.items ≡ out.old.items ++ begun tally) }
{
    put_card(out, b", most begun by card ", tally.card)?;
    put_field(out, b" node ", u64::from(tally.node))?;
    put_field(out, b": ", tally.count)?;
    Ok(())
}

fn put_most(out: &mut Vec<u8>, tally: Option<Tally>) -> Result<(), AllocError>
    ensures { OnOk result (out.new.items ≡ out.old.items ++ most tally) }
{
    match tally {
        Some(tally) => put_begun(out, tally),
        None => Ok(()),
    }
}

/// Appends that a log ends before the last packets of a reset.
#[tactic(auto, unfolding(crate::specs::Texts::cut_off))]
fn put_cut_off(out: &mut Vec<u8>, pending: &Pending) -> Result<(), AllocError>
    ensures { OnOk result (out.new.items ≡ out.old.items ++ cut_off pending.now) }
{
    put_name(out, pending.number, &pending.reset)?;
    put_field(
        out,
        b" ends without its last packets, ",
        u64::from(pending.left),
    )?;
    out.extend_from_slice(b"\n")?;
    Ok(())
}

/// Appends that for each reset that waits for its packets.
fn put_all_cut_off(out: &mut Vec<u8>, pending: &BTreeMap<u64, Pending>) -> Result<(), AllocError>
    ensures { OnOk result (out.new.items ≡ out.old.items ++ all_cut_off pending.now.entries) }
{
    for (_, pending) in pending.iter() {
        put_cut_off(out, pending)?;
    }
    Ok(())
}

/// The last line of a log.
#[tactic(auto, unfolding(crate::specs::Texts::totals))]
pub(crate) fn last_line(alloc: Global, notes: &Notes) -> Result<Vec<u8>, AllocError>
    ensures { IfOk result (λ text. text.items ≡ totals (noted notes.now)) }
{
    let mut text = Vec::new(alloc);
    put_all_cut_off(&mut text, &notes.pending)?;
    put_field(&mut text, b"resets ", notes.counts.resets)?;
    put_field(&mut text, b" refused ", notes.counts.refused)?;
    put_field(&mut text, b" cards ", notes.cards.len() as u64)?;
    put_most(&mut text, notes.tallies.most())?;
    text.extend_from_slice(b"\n")?;
    Ok(text)
}

/// Appends the shortest time for which a port had no node, where that is known.
fn put_shortest(out: &mut Vec<u8>, micros: Option<u64>) -> Result<(), AllocError>
    ensures { OnOk result (out.new.items ≡ out.old.items ++ shortest_for micros) }
{
    match micros {
        Some(micros) => {
            put_seconds(out, b", the shortest for ", micros)?;
            out.extend_from_slice(b" s")?;
            Ok(())
        }
        None => Ok(()),
    }
}

/// Appends at how many resets a port lost the node that hung on it, and how soon it had one again.
#[tactic(auto, unfolding(crate::specs::Texts::port_losses))]
fn put_loss(out: &mut Vec<u8>, loss: &Loss) -> Result<(), AllocError>
    ensures { OnOk result (out.new.items ≡ out.old.items ++ port_losses loss.now) }
{
    put_card(out, b"card ", loss.card)?;
    put_field(out, b" port ", u64::from(loss.port))?;
    put_field(out, b" of node ", u64::from(loss.node))?;
    put_field(out, b" lost its child: ", loss.count)?;
    out.extend_from_slice(b" times")?;
    put_shortest(out, loss.shortest)?;
    out.extend_from_slice(b"\n")?;
    Ok(())
}

/// Appends that for each port.
fn put_losses(out: &mut Vec<u8>, losses: &[Loss]) -> Result<(), AllocError>
    ensures { OnOk result (out.new.items ≡ out.old.items ++ all_losses losses.now) }
{
    let mut rest = losses;
    while let [loss, behind @ ..] = rest {
        put_loss(out, loss)?;
        rest = behind;
    }
    Ok(())
}

/// The last lines of a log in the short form: which ports lost their children how often, and the last line.
pub(crate) fn last_lines(alloc: Global, notes: &Notes) -> Result<Vec<u8>, AllocError>
    ensures { IfOk result (λ text. text.items
        ≡ all_losses (noted notes.now).losses ++ totals (noted notes.now)) }
{
    let mut text = Vec::new(alloc);
    put_losses(&mut text, &notes.losses)?;
    let totals = last_line(alloc, notes)?;
    text.extend_from_slice(&totals)?;
    Ok(text)
}
