//! The cards of a log, each with its last reset.
ghost use Rattle.std.specs.Prelude.{◌≡◌, ◌==◌, ◌&&◌, not, ℕ, [], length, map, true, is_none, Some, None, OnOk};
ghost use Rattle.std.specs.Option.{option_copied};
ghost use Rattle.reset_log.specs.Noted.{is_of, last_of, same_origin, is_back, is_anew, is_second, is_repeated, skipped, missing, since, compared, known_by, forgotten};
ghost use Rattle.std.specs.BTreeSet.{contains};
ghost use Rattle.std.specs.Ordering.{nat_cmp};
ghost use Rattle.reset_list.specs.Update.{place_of, updated};
ghost use Rattle.reset_log.specs.codings.Kept.{forgotten_at};

use log_line::{Origin, Reset};
use reset_list::between;
use std::alloc::{AllocError, Global};
use std::collections::{BTreeMap, BTreeSet};
use std::marker::Model;
use topology_stack::BusTree;

/// A card, and its last reset.
#[derive(Debug, Drop)]
pub struct Known {
    pub card: u64,
    pub generation: u32,
    /// The event that was read last.
    pub origin: Origin,
    /// When it was, in microseconds, where its line says so.
    pub time: Option<u64>,
    /// Whether its list was heard as a tree.
    pub is_heard: bool,
    /// The last tree, where no reset is missing behind it.
    pub tree: Option<BusTree>,
}

/// The cards of a log, in the order of their first resets. In a contract they are the list of them.
#[derive(Drop)]
pub(crate) struct Cards {
    known: Vec<Known>,
    /// Where each card stands.
    places: BTreeMap<u64, usize>,
    /// Where the cards stand that may have a tree.
    drawn: BTreeSet<usize>,
}

impl Model for Cards {
    ghost use Rattle.std.specs.Prelude.{List};
    ghost use Rattle.reset_log.specs.declared.cards.Known.{Known};
    ghost use Rattle.std.specs.Coded.{codes};
    ghost use Rattle.topology_stack.specs.contracts.tree.BusTree as bus_tree;
    ghost use Rattle.reset_log.specs.codings.Kept.{AreKept};

    ghost Value = { List Known };

    ghost coded = { Prim.hlevel (codes, bus_tree.the_row.coded) };

    ghost view = { λ c. c.known.items };

    ghost invariant = { λ c. AreKept c.places c.drawn c.known.items };
}

impl Cards {
    /// No cards.
    pub(crate) fn new(alloc: Global) -> Cards
        ensures { result ≡ [] }
    {
        Cards {
            known: Vec::new(alloc),
            places: BTreeMap::new(alloc),
            drawn: BTreeSet::new(alloc),
        }
    }

    /// How many they are.
    pub(crate) fn len(&self) -> usize
        ensures { result ≡ length self.now }
    {
        self.known.len()
    }

    /// The place of a card.
    fn place(&self, card: u64) -> Option<usize>
        ensures { result ≡ place_of (is_of card) self.now }
    {
        self.places.get(&card).copied()
    }

    /// The last reset of a card, if it had one.
    pub(crate) fn last_of(&self, card: u64) -> Option<&Known>
        ensures { option_copied result ≡ last_of card self.now }
    {
        match self.place(card) {
            Some(at) => Some(&self.known[at]),
            None => None,
        }
    }

    /// Keeps a reset as the last one of the card that stands at this place.
    fn keep_at(
        &mut self,
        at: usize,
        reset: &Reset,
        heard: Option<BusTree>,
    ) -> Result<(), AllocError>
        requires { place_of (is_of reset.now.card) self.old ≡ Some at }
        ensures { OnOk result (self.new
            ≡ updated (is_of reset.now.card) (known_by reset.now heard) self.old) }
    {
        let wanted = is_first_tree(&self.known[at], heard.is_some());
        add_if(&mut self.drawn, at, wanted)?;
        note(&mut self.known[at], reset, heard);
        Ok(())
    }

    /// Keeps the first reset of a card.
    fn begin(&mut self, reset: &Reset, heard: Option<BusTree>) -> Result<(), AllocError>
        requires { place_of (is_of reset.now.card) self.old ≡ None }
        ensures { OnOk result (self.new
            ≡ updated (is_of reset.now.card) (known_by reset.now heard) self.old) }
    {
        let at = self.known.len();
        add_if(&mut self.drawn, at, heard.is_some())?;
        self.known.reserve(1)?;
        self.places.insert(reset.card, at)?;
        self.known.push_reserved(first(reset, heard));
        Ok(())
    }

    /// Keeps a reset as the last one of its card, and the tree that it is heard as, if it is.
    pub(crate) fn keep(&mut self, reset: &Reset, heard: Option<BusTree>) -> Result<(), AllocError>
        ensures { OnOk result (self.new
            ≡ updated (is_of reset.now.card) (known_by reset.now heard) self.old) }
    {
        match self.place(reset.card) {
            Some(at) => self.keep_at(at, reset, heard),
            None => self.begin(reset, heard),
        }
    }

    /// Forgets the tree of each card.
    pub(crate) fn forget_all(&mut self)
        ensures { self.new ≡ map forgotten self.old }
    {
        while let Some(at) = self.drawn.pop_last() {
            forget_at(&mut self.known, at);
        }
    }
}

/// Whether a card without a tree gets one, since its reset was heard.
fn is_first_tree(known: &Known, is_heard: bool) -> bool
    ensures { result ≡ is_heard && is_none known.now.tree }
{
    is_heard && known.tree.is_none()
}

/// Puts a place among others, if it is wanted there.
fn add_if(places: &mut BTreeSet<usize>, at: usize, wanted: bool) -> Result<(), AllocError>
    ensures there { OnOk result (wanted ≡ true → contains nat_cmp places.new at ≡ true) }
    ensures others { (other : ℕ) → contains nat_cmp places.old other ≡ true →
        contains nat_cmp places.new other ≡ true }
{
    if wanted {
        places.insert(at)?;
    }
    Ok(())
}

/// Forgets the tree of the card at a place, if one stands there.
fn forget_at(cards: &mut Vec<Known>, at: usize)
    ensures { cards.new.items ≡ forgotten_at at cards.old.items }
{
    if at < cards.len() {
        cards[at].tree = None;
    }
}

fn same_origin(a: Origin, b: Origin) -> bool
    ensures { result ≡ same_origin a b }
{
    match (a, b) {
        (Origin::Controller, Origin::Controller) | (Origin::Core, Origin::Core) => true,
        _ => false,
    }
}

/// Whether a time is a second or more before another one, in microseconds.
fn is_back(past: Option<u64>, now: Option<u64>) -> bool
    ensures { result ≡ is_back past now }
{
    match (past, now) {
        (Some(past), Some(now)) => match past.checked_sub(now) {
            Some(back) => back >= 1_000_000,
            None => false,
        },
        _ => false,
    }
}

/// Whether the machine was booted between a card's reset and the next one that is there.
fn is_anew(known: &Known, reset: &Reset) -> bool
    ensures { result ≡ is_anew known.now reset.now }
{
    is_back(known.time, reset.time)
}

/// Whether a reset is the card's last one by its other event.
pub fn is_second(before: Option<&Known>, reset: &Reset) -> bool
    ensures { result ≡ is_second (option_copied before.entry) reset.now }
{
    match before {
        Some(known) => {
            !is_anew(known, reset)
                && known.generation == reset.generation
                && !same_origin(known.origin, reset.origin)
        }
        None => false,
    }
}

/// Whether a reset is the card's last one by its other event, and that one was heard.
pub fn is_repeated(before: Option<&Known>, reset: &Reset) -> bool
    ensures { result ≡ is_repeated (option_copied before.entry) reset.now }
{
    match before {
        Some(known) => is_second(Some(known), reset) && known.is_heard,
        None => false,
    }
}

/// How many resets are missing between two generations.
#[tactic(auto, unfolding(crate::specs::Noted::skipped))]
fn skipped(old: u32, new: u32) -> u32
    ensures { result ≡ skipped old new }
{
    let between = (new % 256 + (255 - old % 256)) % 256;
    if between == 255 { 0 } else { between }
}

/// How many resets are missing between a card's reset and the next one that is there.
fn missing_behind(known: &Known, reset: &Reset) -> u32
    ensures { result ≡ missing (Some known.now) reset.now }
{
    if is_second(Some(known), reset) || is_anew(known, reset) {
        return 0;
    }
    skipped(known.generation, reset.generation)
}

/// How many resets are missing before this one.
pub(crate) fn missing(before: Option<&Known>, reset: &Reset) -> u32
    ensures { result ≡ missing (option_copied before.entry) reset.now }
{
    match before {
        Some(known) => missing_behind(known, reset),
        None => 0,
    }
}

/// How long the card's reset before this one is past, in microseconds.
pub(crate) fn since(before: Option<&Known>, reset: &Reset) -> Option<u64>
    ensures { result ≡ since (option_copied before.entry) reset.now }
{
    match before {
        Some(known) => {
            if is_second(Some(known), reset) {
                return None;
            }
            between(known.time, reset.time)
        }
        None => None,
    }
}

/// Whether resets are missing between a card's reset and the next one that is there, or a boot came.
fn is_apart(known: &Known, reset: &Reset) -> bool
    ensures { result ≡ not ((missing (Some known.now) reset.now == 0) && not (is_anew known.now reset.now)) }
{
    missing_behind(known, reset) != 0 || is_anew(known, reset)
}

/// The tree that a reset's is compared with.
pub(crate) fn compared<'k>(before: Option<&'k Known>, reset: &Reset) -> Option<&'k BusTree>
    ensures { option_copied result ≡ compared (option_copied before.entry) reset.now }
{
    match before {
        Some(known) => {
            if is_apart(known, reset) {
                return None;
            }
            known.tree.as_ref()
        }
        None => None,
    }
}

/// Notes the reset that is there behind another one of its card.
fn note(known: &mut Known, reset: &Reset, heard: Option<BusTree>)
    ensures { known.new ≡ known_by reset.now heard (Some known.old) }
{
    let apart = is_apart(known, reset);
    known.is_heard = heard.is_some();
    if let Some(tree) = heard {
        known.tree = Some(tree);
    } else if apart {
        known.tree = None;
    }
    known.card = reset.card;
    known.generation = reset.generation;
    known.origin = reset.origin;
    known.time = reset.time;
}

/// A card with its first reset.
fn first(reset: &Reset, heard: Option<BusTree>) -> Known
    ensures { result ≡ known_by reset.now heard None }
{
    Known {
        card: reset.card,
        generation: reset.generation,
        origin: reset.origin,
        time: reset.time,
        is_heard: heard.is_some(),
        tree: heard,
    }
}
