//! Ends of cables that are marked.
ghost use Rattle.std.specs.Prelude.{◌≡◌, ◌≢◌, ◌↔◌, ◌<◌, ◌+◌, ◌*◌, ℕ, IsTrue};
ghost use Rattle.cabling.specs.declared.cable.End.{End};
ghost use Rattle.loop_advice.specs.codings.Marks.{IsMarked, place};

use cabling::End;

/// The ends that there may be: 63 nodes with 16 ports each.
const ENDS: usize = 1008;

/// A set of ends.
#[derive(Clone, Copy)]
pub(crate) struct Marks {
    marked: [bool; ENDS],
}

/// The place of an end in the table of marks.
fn place(end: End) -> usize
    requires node { end.node < 63 }
    requires port { end.port < 16 }
    ensures value { result ≡ place end }
    ensures small { result < 1008 }
{
    16 * end.node as usize + end.port as usize
}

impl Marks {
    /// No end is marked.
    pub(crate) fn new() -> Marks
        ensures { (end : End) → IsMarked result end → ⊥ }
    {
        Marks {
            marked: [false; ENDS],
        }
    }

    /// Whether an end is marked.
    pub(crate) fn has(&self, end: End) -> bool
        requires node { end.node < 63 }
        requires port { end.port < 16 }
        ensures { IsTrue result ↔ IsMarked self.now end }
    {
        self.marked[place(end)]
    }

    /// Marks an end.
    pub(crate) fn insert(&mut self, end: End)
        requires node { end.node < 63 }
        requires port { end.port < 16 }
        ensures held { IsMarked self.new end }
        ensures others { (e : End) → place e ≢ place end →
            (IsMarked self.new e ↔ IsMarked self.old e) }
    {
        self.marked[place(end)] = true;
    }
}
