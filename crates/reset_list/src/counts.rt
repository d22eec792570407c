//! What is counted of resets.
ghost use Rattle.std.specs.Prelude.{◌≡◌, [], slice_get, Some, None, OnOk};
ghost use Rattle.self_id.specs.Node.{Node};
ghost use Rattle.topology_stack.specs.Tree.{walk};
ghost use Rattle.reset_list.specs.Counts.{counted, is_tally, one_more_of, tallied_if, tallied, greater, most_of};
ghost use Rattle.reset_list.specs.Update.{place_of, updated};

use crate::texts::initiated;
use std::alloc::{AllocError, Global};
use std::collections::BTreeMap;
use std::marker::Model;
use topology_stack::BusTree;

/// The resets of a log, and the lists that were refused.
#[derive(Clone, Copy, Debug, PartialEq, Eq)]
pub struct Counts {
    pub resets: u64,
    pub refused: u64,
}

/// How many resets a node began.
#[derive(Clone, Copy, Debug, PartialEq, Eq)]
pub struct Tally {
    pub card: u64,
    pub node: u8,
    pub count: u64,
}

/// Counts a reset, unless it is the last one by its other event, and its list, if that is refused.
pub fn count_reset(counts: &mut Counts, second: bool, refused: bool)
    ensures { counts.new ≡ counted second refused counts.old }
{
    if !second {
        counts.resets = counts.resets.saturating_add(1);
    }
    if refused {
        counts.refused = counts.refused.saturating_add(1);
    }
}

/// How many resets each node began, in the order in which they first did. In a contract it is the list of them.
#[derive(Drop)]
pub struct Tallies {
    list: Vec<Tally>,
    places: BTreeMap<(u64, u8), usize>,
}

impl Model for Tallies {
    ghost use Rattle.std.specs.Prelude.{List};
    ghost use Rattle.reset_list.specs.declared.counts.Tally.{Tally};
    ghost use Rattle.reset_list.specs.codings.Tallies.{AreTallied};

    ghost Value = { List Tally };

    ghost view = { λ t. t.list.items };

    ghost invariant = { λ t. AreTallied t.places t.list.items };
}

impl Tallies {
    /// No node began a reset.
    pub fn new(alloc: Global) -> Tallies
        ensures { result ≡ [] }
    {
        Tallies {
            list: Vec::new(alloc),
            places: BTreeMap::new(alloc),
        }
    }

    /// Counts again that a node began a reset, whose tally stands at this place.
    fn again(&mut self, at: usize, card: u64, node: u8)
        requires { place_of (is_tally card node) self.old ≡ Some at }
        ensures { self.new ≡ updated (is_tally card node) (one_more_of card node) self.old }
    {
        self.list[at] = more(self.list[at], card, node);
    }

    /// Counts the first reset that a node began.
    fn begin(&mut self, card: u64, node: u8) -> Result<(), AllocError>
        requires { place_of (is_tally card node) self.old ≡ None }
        ensures { OnOk result (self.new
            ≡ updated (is_tally card node) (one_more_of card node) self.old) }
    {
        let at = self.list.len();
        let count = 1;
        self.list.reserve(1)?;
        self.places.insert((card, node), at)?;
        self.list.push_reserved(Tally { card, node, count });
        Ok(())
    }

    /// Counts that a node began a reset.
    fn add(&mut self, card: u64, node: u8) -> Result<(), AllocError>
        ensures { OnOk result (self.new
            ≡ updated (is_tally card node) (one_more_of card node) self.old) }
    {
        match self.place(card, node) {
            Some(at) => {
                self.again(at, card, node);
                Ok(())
            }
            None => self.begin(card, node),
        }
    }

    /// The place of a node.
    fn place(&self, card: u64, node: u8) -> Option<usize>
        ensures { result ≡ place_of (is_tally card node) self.now }
    {
        self.places.get(&(card, node)).copied()
    }

    fn add_if(&mut self, card: u64, node: u8, initiated: bool) -> Result<(), AllocError>
        ensures { OnOk result (self.new ≡ tallied_if initiated card node self.old) }
    {
        if initiated {
            self.add(card, node)?;
        }
        Ok(())
    }

    /// Counts each node that began a reset of this card, as its tree tells.
    pub fn count_begun(&mut self, card: u64, tree: &BusTree) -> Result<(), AllocError>
        ensures { OnOk result (self.new ≡ tallied card 0 (walk tree.now) self.old) }
    {
        for id in 0..tree.len() {
            self.add_if(card, id, initiated(tree, id))?;
        }
        Ok(())
    }

    /// The first of the nodes that began most resets. `None` where none began one.
    pub fn most(&self) -> Option<Tally>
        ensures { result ≡ most_of None self.now }
    {
        most_of(&self.list)
    }
}

/// One more of a node that began resets.
fn more(tally: Tally, card: u64, node: u8) -> Tally
    ensures { result ≡ one_more_of card node (Some tally) }
{
    Tally {
        card,
        node,
        count: tally.count.saturating_add(1),
    }
}

fn greater(best: Option<Tally>, tally: Tally) -> Tally
    ensures { result ≡ greater best tally }
{
    match best {
        Some(best) => {
            if tally.count <= best.count {
                best
            } else {
                tally
            }
        }
        None => tally,
    }
}

/// The first of the nodes that began most resets. `None` where none began one.
fn most_of(tallies: &[Tally]) -> Option<Tally>
    ensures { result ≡ most_of None tallies.now }
{
    let mut best = None;
    let mut rest = tallies;
    while let [tally, behind @ ..] = rest {
        best = Some(greater(best, *tally));
        rest = behind;
    }
    best
}
