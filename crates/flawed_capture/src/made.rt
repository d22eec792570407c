//! Buses that are made of a number of nodes and words.
ghost use Rattle.std.specs.Prelude.{◌≡◌, ◌*◌, ◌<◌, ◌≤◌, ℕ, length, Err, IfOk, OnOk};
ghost use Rattle.self_id.specs.declared.standard.Standard.{Standard};
ghost use Rattle.flawed_capture.specs.Draws.{behind, word};
ghost use Rattle.flawed_capture.specs.SeededBus.{shape_by, children_by, children_of, words_of, plan_by, first_nodes, made_by};
ghost use Rattle.flawed_capture.specs.Spoilt.{IsListOfBus};

use crate::flaw::FlawStop;
use crate::node::{made_group, most_slots};
use crate::words::next_word;
use quad_lanes::QuadList;
use rand_pcg::Pcg32;
use self_id::Standard;
use std::alloc::Global;
use topology_stack::OutOfMemory;

/// How the nodes of a bus are joined.
#[derive(Clone, Copy, Debug)]
pub(crate) enum Shape {
    /// Each node but the first has one child.
    Line,
    /// As few nodes as possible have children.
    Star,
    /// Each node that has children has as many as a node can have.
    Hubs,
    /// Each node has up to three children.
    Random,
}

impl Shape {
    /// The shape that a word says.
    #[tactic(auto, unfolding(crate::specs::SeededBus::shape_by))]
    fn of_word(word: u32) -> Shape
        ensures { result ≡ shape_by word }
    {
        match word % 4 {
            0 => Shape::Line,
            1 => Shape::Star,
            2 => Shape::Hubs,
            _ => Shape::Random,
        }
    }

    /// How many of the trees that wait for a parent a node takes that has a parent itself. Never do more
    /// wait than the root has slots.
    #[tactic(auto, unfolding(crate::specs::SeededBus::children_by))]
    fn children(self, waiting: usize, most: usize, word: u32) -> usize
        requires { 16 ≤ most }
        ensures value { result ≡ children_by self waiting most word }
        ensures few { result ≤ waiting }
    {
        let wanted = match self {
            Shape::Line => 1,
            Shape::Star => 0,
            Shape::Hubs if waiting < most - 1 => 0,
            Shape::Hubs => most - 1,
            Shape::Random => word as usize % 4,
        };
        let least = if waiting < most { 0 } else { 1 };
        wanted.max(least).min(waiting)
    }
}

/// What all nodes of a bus have in common.
#[derive(Clone, Copy, Debug)]
pub(crate) struct Plan {
    pub(crate) standard: Standard,
    pub(crate) nodes: u8,
    pub(crate) shape: Shape,
    pub(crate) gap: u8,
}

impl Plan {
    /// The plan that two words say.
    fn of_words(standard: Standard, nodes: u8, words: &mut Pcg32) -> Plan
        ensures plan { result
            ≡ plan_by standard nodes (word words.old) (word (behind words.old)) }
        ensures words { words.new ≡ behind (behind words.old) }
        ensures gap { result.gap < 64 }
    {
        let shape = Shape::of_word(next_word(words));
        let gap = (next_word(words) % 64) as u8;
        Plan {
            standard,
            nodes,
            shape,
            gap,
        }
    }

    /// How many of the trees that wait for a parent the next node takes: the root takes all.
    fn children(self, is_root: bool, waiting: usize, words: &mut Pcg32) -> usize
        ensures value { result ≡ children_of self is_root waiting words.old }
        ensures words { words.new ≡ words_of is_root words.old }
        ensures few { result ≤ waiting }
    {
        if is_root {
            waiting
        } else {
            let most = most_slots(self.standard);
            self.shape.children(waiting, most, next_word(words))
        }
    }
}

/// The packets of the nodes of a bus, which the words make.
fn planned_list(alloc: Global, plan: Plan, words: &mut Pcg32) -> Result<QuadList, OutOfMemory>
    requires nodes { plan.nodes ≤ 63 }
    requires gap { plan.gap < 64 }
    ensures few { IfOk result (λ list. length list ≤ 252) }
    ensures list { IfOk result (λ list.
        list ≡ (first_nodes plan words.old plan.nodes).list) }
    ensures words { OnOk result (words.new ≡ (first_nodes plan words.old plan.nodes).words) }
{
    let mut waiting = 0;
    let mut list = QuadList::new(alloc);
    for id in 0..plan.nodes {
        let is_root = id + 1 == plan.nodes;
        let children = plan.children(is_root, waiting, words);
        let group = made_group(alloc, plan.standard, plan.gap, id, children, is_root, words)?;
        list.extend_from_slice(group.as_slice())?;
        waiting = waiting + 1 - children;
    }
    Ok(list)
}

/// The list of a bus with so many nodes, which the words make.
#[tactic(auto, unfolding(crate::specs::SeededBus::made_by))]
fn made_list(
    alloc: Global,
    standard: Standard,
    nodes: u8,
    words: &mut Pcg32,
) -> Result<QuadList, OutOfMemory>
    requires { nodes ≤ 63 }
    ensures few { IfOk result (λ list. length list ≤ 252) }
    ensures list { IfOk result (λ list. list ≡ (made_by standard nodes words.old).list) }
    ensures words { OnOk result (words.new ≡ (made_by standard nodes words.old).words) }
{
    let plan = Plan::of_words(standard, nodes, words);
    planned_list(alloc, plan, words)
}

/// The list of a bus of a standard with so many nodes, 1 to 63, which the words make. `NoBus` comes for no nodes.
pub(crate) fn made_bus(
    alloc: Global,
    standard: Standard,
    nodes: u8,
    words: &mut Pcg32,
) -> Result<QuadList, FlawStop>
    requires { nodes ≤ 63 }
    ensures bus { IfOk result (λ list. IsListOfBus standard nodes list) }
    ensures list { IfOk result (λ list. list ≡ (made_by standard nodes words.old).list) }
    ensures words { OnOk result (words.new ≡ (made_by standard nodes words.old).words) }
    ensures some { IfOk result (λ list. 0 < length list) }
    ensures few { IfOk result (λ list. length list ≤ 252) }
    ensures enough { (wanted : ℕ) → result ≡ Err (FlawStop.TooFewNodes wanted) → ⊥ }
    ensures made { result ≡ Err FlawStop.NotFound → ⊥ }
    ensures none { result ≡ Err FlawStop.NoBus → nodes ≡ 0 }
{
    if nodes == 0 {
        return Err(FlawStop::NoBus);
    }
    Ok(made_list(alloc, standard, nodes, words)?)
}
