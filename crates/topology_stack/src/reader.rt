//! Reading a list as it comes.
ghost use Rattle.std.specs.Prelude.{◌≡◌, ◌≤◌, ℕ, List, [], ◌∷◌, ◌++◌, length, Ok, Err, IfOk, IfErr, IsSome, IfSome, IfNone};
ghost use Rattle.self_id.specs.declared.standard.Standard.TheVariants.{Ieee2000};
ghost use Rattle.topology_stack.specs.Tree.{Tree, IsBusTreeOf, emits};
ghost use Rattle.topology_stack.specs.Refused.{Refused};
ghost use Rattle.topology_stack.specs.Reader.{IsLasting, StandsFor};
ghost use Rattle.topology_stack.specs.codings.Place.{StandsAtEnd, GroupMayEnd};
ghost use Rattle.topology_stack.specs.Answer.{IfFault, UnlessMemory};
ghost use Rattle.topology_stack.specs.declared.fault.TreeFault.{TreeFault};

use crate::fault::{TreeFault, TreeStop};
use crate::reading::MAX_NODES;
use crate::tree::{BusTree, read_tree};
use crate::waiting::{Waiting, after_node};
use arrayvec::ArrayVec;
use self_id::{GroupFault, read_group};
use std::alloc::Global;
use std::marker::Model;

/// The quadlets of 63 groups of three packets.
const MAX_QUADS: usize = 189;

/// A place behind whole groups.
#[derive(Clone, Copy, Debug)]
struct Place {
    /// It counts quadlets from 0.
    pub at: usize,
    /// How many groups stand before it.
    pub nodes: u8,
    pub waiting: Waiting,
}

/// The fault of a list that goes on behind whole groups.
fn fault_of_more(quads: &[u32], place: Place) -> Option<TreeFault>
    requires { StandsAtEnd quads.now place }
    ensures none { (quad : ℕ) → IfNone result (GroupMayEnd (quads.now ++ quad ∷ []) place) }
    ensures fault { (quad : ℕ) → IfSome result (λ f. Refused Ieee2000 (quads.now ++ quad ∷ []) f
        × IsLasting f) }
{
    let at = place.at;
    if at < quads.len() {
        None
    } else if place.waiting.rooted {
        Some(TreeFault::AfterRoot { at })
    } else if place.nodes as usize == MAX_NODES {
        Some(TreeFault::TooMany { at })
    } else {
        None
    }
}

/// The place behind the group that stands at a place, or that place again where the list ends
/// within the group.
fn behind_group(quads: &[u32], place: Place) -> Result<Place, TreeFault>
    requires { GroupMayEnd quads.now place }
    ensures place { IfOk result (λ p. StandsAtEnd quads.now p) }
    ensures fault { IfErr result (λ f. Refused Ieee2000 quads.now f × IsLasting f) }
{
    match read_group(quads, place.at, place.nodes) {
        Ok((node, after)) => Ok(Place {
            at: after,
            nodes: place.nodes + 1,
            waiting: after_node(place.at, place.waiting.trees, &node)?,
        }),
        Err(fault) => match fault {
            GroupFault::Cut { .. } => Ok(place),
            _ => Err(TreeFault::Group(fault)),
        },
    }
}

/// A reader, by IEEE 1394a-2000, of a list that comes quadlet by quadlet. It keeps the list, at most
/// 189 quadlets, or the list's first fault that doesn't depend on how the list goes on. It takes no
/// memory until the tree is asked for.
#[derive(Debug, Drop)]
pub struct TreeReader {
    quads: ArrayVec<u32, MAX_QUADS>,
    fault: Option<TreeFault>,
    place: Place,
}

impl Model for TreeReader {
    ghost use Rattle.topology_stack.specs.Reader.{Kept};
    ghost use Rattle.topology_stack.specs.codings.Place.{IsPlaced};

    ghost Value = { Kept };

    ghost view = { λ r. record { quads = r.quads.items; fault = r.fault } };

    ghost invariant = { λ r. IsPlaced r.quads.items r.place r.fault };
}

impl TreeReader {
    /// A reader that was given nothing.
    pub fn new() -> TreeReader
        ensures { StandsFor result [] }
    {
        let waiting = Waiting {
            trees: 0,
            rooted: false,
        };
        TreeReader {
            quads: ArrayVec::new(),
            fault: None,
            place: Place {
                at: 0,
                nodes: 0,
                waiting,
            },
        }
    }

    /// How many quadlets the reader keeps, at most 189.
    pub fn kept(&self) -> usize
        ensures value { result ≡ length self.now.quads }
        ensures few { result ≤ 189 }
    {
        self.quads.len()
    }

    /// Gives the reader the next quadlet of the list. Once a fault was found nothing changes any
    /// more.
    pub fn push(&mut self, quad: u32)
        ensures list { (l : List ℕ) → StandsFor self.old l → StandsFor self.new (l ++ quad ∷ []) }
        ensures stays { IsSome self.old.fault → self.new ≡ self.old }
    {
        if self.fault.is_some() {
            return;
        }
        if let Some(fault) = fault_of_more(&self.quads, self.place) {
            self.fault = Some(fault);
            return;
        }
        self.quads.push(quad);
        match behind_group(&self.quads, self.place) {
            Ok(place) => self.place = place,
            Err(fault) => self.fault = Some(fault),
        }
    }

    /// The bus tree that emits the list that the reader was given, or the list's fault. It answers as
    /// `read_tree` does, but want of memory comes only where a bus tree emits the list.
    pub fn finish(&self, alloc: Global) -> Result<BusTree, TreeStop>
        // The tree that is answered emits the list, and a fault that is answered is the list's.
        ensures found { IfOk result (λ t. (l : List ℕ) → StandsFor self.now l
            → IsBusTreeOf Ieee2000 t × (emits t ≡ l)) }
        ensures refused { IfFault result (λ f. (l : List ℕ) → StandsFor self.now l
            → Refused Ieee2000 l f) }
        // A tree that emits the list is answered, unless memory ran out.
        ensures only { (l : List ℕ) (t : Tree) → StandsFor self.now l → IsBusTreeOf Ieee2000 t
            → emits t ≡ l → UnlessMemory result (Ok t) }
        // The list's fault is answered, and no memory is taken for it.
        ensures exact { (l : List ℕ) (f : TreeFault) → StandsFor self.now l → Refused Ieee2000 l f
            → result ≡ Err (TreeStop.Fault f) }
    {
        if let Some(fault) = self.fault {
            return Err(TreeStop::Fault(fault));
        }
        let length = self.quads.len();
        if self.place.at < length {
            return Err(TreeStop::Fault(TreeFault::Group(GroupFault::Cut { at: length })));
        }
        if self.place.waiting.rooted {
            return read_tree(alloc, &self.quads);
        }
        if length == 0 {
            return Err(TreeStop::Fault(TreeFault::Empty));
        }
        Err(TreeStop::Fault(TreeFault::NoRoot { at: length }))
    }
}
