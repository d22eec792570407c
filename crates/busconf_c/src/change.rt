//! What differs between two buses, as records.
ghost use Rattle.std.specs.Prelude.{◌≡◌, map};
ghost use Rattle.c_border.specs.Places.{IsCopied};
ghost use Rattle.busconf_c.specs.Changes.{cable_record, hanging, saying, quality_number, change_record};

use crate::records::{CableRecord, ChangeRecord};
use bus_diff::{Change, Quality};
use c_border::{OK, TOO_SHORT};
use c_records::id_or_none;
use view_text::Cable;

/// The number that names no node: 63 means all of them.
const NO_NODE: u8 = 63;

/// The record of a cable, if there is one.
fn cable_record(cable: Option<Cable>) -> CableRecord
    ensures { result ≡ cable_record cable }
{
    match cable {
        None => CableRecord {
            parent: NO_NODE,
            port: 0,
            child: NO_NODE,
            child_port: 0,
            speed: 0,
        },
        Some(cable) => CableRecord {
            parent: cable.parent,
            port: cable.port,
            child: cable.child,
            child_port: cable.child_port,
            speed: cable.speed,
        },
    }
}

/// The record of a kind, of a node that hung on one cable and hangs on another.
fn hanging(
    kind: u8,
    old_id: u8,
    new_id: u8,
    old_cable: Option<Cable>,
    new_cable: Option<Cable>,
) -> ChangeRecord
    ensures { result ≡ hanging kind old_id new_id old_cable new_cable }
{
    ChangeRecord {
        kind,
        old_id,
        new_id,
        old_value: 0,
        new_value: 0,
        old_cable: cable_record(old_cable),
        new_cable: cable_record(new_cable),
    }
}

/// The record of a kind, of a node that says other values of itself.
fn saying(kind: u8, old_id: u8, new_id: u8, old_value: u8, new_value: u8) -> ChangeRecord
    ensures { result ≡ saying kind old_id new_id old_value new_value }
{
    ChangeRecord {
        kind,
        old_id,
        new_id,
        old_value,
        new_value,
        old_cable: cable_record(None),
        new_cable: cable_record(None),
    }
}

/// The number of the kind of a value that a node says of itself.
fn quality_number(quality: Quality) -> u8
    ensures { result ≡ quality_number quality }
{
    match quality {
        Quality::Link => 4,
        Quality::Gap => 5,
        Quality::Speed => 6,
        Quality::Contender => 7,
        Quality::Power => 8,
    }
}

/// The record of a change.
fn change_record(change: Change) -> ChangeRecord
    ensures { result ≡ change_record change }
{
    match change {
        Change::Went { id, cable } => hanging(1, id, NO_NODE, cable, None),
        Change::Came { id, cable } => hanging(2, NO_NODE, id, None, cable),
        Change::Moved { pair, from, to } => hanging(3, pair.old, pair.new, from, to),
        Change::Value {
            pair,
            quality,
            from,
            to,
        } => saying(quality_number(quality), pair.old, pair.new, from, to),
        Change::Root { from, to } => saying(9, from, to, 0, 0),
        Change::Manager { from, to } => saying(10, id_or_none(from), id_or_none(to), 0, 0),
    }
}

/// Writes the records of changes to the front of a place, where it has room, and tells how many they are.
pub(crate) fn tell_changes(list: &[Change], place: &mut [ChangeRecord], needed: &mut usize) -> u32
    ensures { IsCopied (map change_record list.now) place.old place.new needed.new result }
{
    *needed = list.len();
    if place.len() < list.len() {
        return TOO_SHORT;
    }
    for (i, change) in list.iter().enumerate() {
        place[i] = change_record(*change);
    }
    OK
}
