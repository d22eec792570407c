//! Laws of the tree that grows. Each function is a fact for the crates above, which call it.
ghost use Rattle.convergence.specs.Acyclic.{IsAcyclic, SetsHaveTops, SetsHaveBottoms};
ghost use Rattle.convergence.specs.Cables.{LevelsComeThrough};
ghost use Rattle.convergence.specs.Kept.{IsKept};
ghost use Rattle.convergence.specs.Kept.{OnceOver, OnceOverAndAcyclic};
ghost use Rattle.convergence.specs.Roots.{LoopsAreUndecided, RootsAreAlone, RootsHaveTrees};
ghost use Rattle.convergence.specs.Roots.{LoopsHaveNoRoot, IsUndecidedInLoops};
ghost use Rattle.convergence.specs.Turns.{turns_to_over, HoldsAfter};

/// Child cables form no cycle: a world is acyclic at power-on, and turns, holds and acts keep a
/// lawful world so.
pub fn worlds_stay_acyclic()
    ensures { IsKept IsAcyclic }
{}

/// Each set of nodes that isn't empty has a member that no child cable enters from a member, and
/// one that no child cable leaves to a member.
pub fn sets_have_ends()
    ensures top { SetsHaveTops }
    ensures bottom { SetsHaveBottoms }
{}

/// Once resets are over each node of a loop of cables is in a phase up to T0, and a component has
/// one root at most. Where it has one, every node knows its tree, and there is no loop.
pub fn loops_stay_undecided()
    ensures core { OnceOverAndAcyclic LoopsAreUndecided }
    ensures one_root { OnceOver RootsAreAlone }
    ensures all_late { OnceOver RootsHaveTrees }
    ensures no_root { OnceOverAndAcyclic LoopsHaveNoRoot }
    ensures after_turns { HoldsAfter turns_to_over IsUndecidedInLoops }
{}

/// What a node tells over a cable comes through in d quiet turns, whatever is held: where each level
/// that it told meanwhile passes a test, the level that the other end shows does.
pub fn levels_come_through()
    ensures { LevelsComeThrough }
{}
