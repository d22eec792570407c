//! The milestones of a bus of n nodes whose cables delay by at most d turns, in quiet turns. Any
//! holds may be placed before, between and after these turns. In turns, no node has a longer hold
//! than H, a longer time to be forced than F, a longer timeout than T, or a longer wait than L. Where
//! all clocks are even, e is d, and else d + 1: by then a node has seen what was told.
ghost use Rattle.convergence.specs.Kept.{KeptByTurn, KeptOnceDone, OnceDone, AfterAny};
ghost use Rattle.convergence.specs.Kept.{AfterDone, AfterDoneAcyclic, AfterGrown, KeptOnceGrown};
ghost use Rattle.convergence.specs.Milestones.{ResetsAreOver, ResetsAreDone, NoResetIsUnderWay};
ghost use Rattle.convergence.specs.Milestones.{TreesAreTaken, TreesAreDecided, LoopsAreReported};
ghost use Rattle.convergence.specs.Turns.{turns_to_over, turns_to_done, turns_to_trees};
ghost use Rattle.convergence.specs.Turns.{turns_to_loops, turns_to_decision, tree_turns};
ghost use Rattle.convergence.specs.Turns.{loop_turns, decision_turns, HoldsAfter};

/// After n d turns a Reset is under way to nodes in R0 alone.
pub fn resets_are_over()
    ensures { AfterAny turns_to_over ResetsAreOver }
{}

/// H + e turns later no node is in R0 or R1. A turn keeps that, and no Reset is under way to
/// anyone.
pub fn resets_are_done()
    ensures after { AfterAny turns_to_done ResetsAreDone }
    ensures turn { KeptByTurn ResetsAreDone }
    ensures over { OnceDone NoResetIsUnderWay }
{}

/// From there each component without loop knows its tree after F + n e turns: its nodes are in
/// phases after T0. A turn keeps that.
pub fn trees_are_taken()
    ensures after { AfterDone tree_turns TreesAreTaken }
    ensures turn { KeptOnceDone TreesAreTaken }
    ensures reached { HoldsAfter turns_to_trees TreesAreTaken }
{}

/// Each node of a loop reports that the configuration timed out T + 1 turns after resets are done, or
/// T + 2 where a clock misses turns.
pub fn loops_are_reported()
    ensures after { AfterDoneAcyclic loop_turns LoopsAreReported }
    ensures reached { HoldsAfter turns_to_loops LoopsAreReported }
{}

/// Where trees are taken, each component without loop is through tree identify after 12 n e turns,
/// 33 rounds of L + 2 e turns, and 2 L + 2 e + 1 turns more, or 2 where a clock misses turns: every
/// node of it identifies itself or is Ready, or two of them contend, with 32 equal draws. A turn keeps
/// that.
pub fn trees_are_decided()
    ensures after { AfterGrown decision_turns TreesAreDecided }
    ensures turn { KeptOnceGrown TreesAreDecided }
    ensures reached { HoldsAfter turns_to_decision TreesAreDecided }
{}
