//! Laws of worlds. Each function is a fact for the crates above, which call it.
ghost use Rattle.cable_world.specs.Outcome.{OneOutcomeAtMost};
ghost use Rattle.cable_world.specs.Lawful.{IsLawful};
ghost use Rattle.cable_world.specs.Run.{ComesOfPowerOn, IsReached};
ghost use Rattle.cable_world.specs.ByNumber.{NodesTakeTurns, WiresTakeTurns};
ghost use Rattle.cable_world.specs.Unchanged.{TurnKeepsCables, TurnKeepsDelay, TurnKeepsLongest};
ghost use Rattle.cable_world.specs.Unchanged.{TurnIsCounted};
ghost use Rattle.cable_world.specs.Unchanged.{TurnKeepsNodes, NoTurnIsNone, OneTurnMore, TurnsAdd};
ghost use Rattle.cable_world.specs.Unchanged.{ActKeepsNodes, ActKeepsTurns, ActKeepsDelay};
ghost use Rattle.cable_world.specs.Unchanged.{ActKeepsLongest};
ghost use Rattle.cable_world.specs.StaysLawful.{HoldsAtPowerOn, KeptByTurns, KeptByHolds, KeptByActs};
ghost use Rattle.cable_world.specs.StaysLawful.{ComesIsLawful, ReachedIsLawful, ReachedAtPowerOn};
ghost use Rattle.cable_world.specs.StaysLawful.{TimesStay};
ghost use Rattle.cable_world.specs.StaysLawful.{ReachedComesOfPowerOn, ReachedCanRun};
ghost use Rattle.cable_world.specs.Quiet.{HoldsAreCalls, PlainTurnsAreQuiet, OneQuietTurnMore};
ghost use Rattle.cable_world.specs.Quiet.{NoQuietTurnIsHolds, QuietTurnsAdd, KeptByQuietTurns};
ghost use Rattle.cable_world.specs.Still.{StillTurnsPass};
ghost use Rattle.cable_world.specs.ResetsEnd.{NoneEnters, CountsStand};

/// What a turn makes of each node and of each wire, by number: a node hears what came to its ports,
/// and ticks; a wire loses what it gave, and takes what its node sent.
pub fn turn_by_number()
    ensures node { NodesTakeTurns }
    ensures wire { WiresTakeTurns }
{}

/// What a turn leaves as it is, and how the turns are counted.
pub fn turn_keeps()
    ensures cables { TurnKeepsCables }
    ensures delay { TurnKeepsDelay }
    ensures longest { TurnKeepsLongest }
    ensures counted { TurnIsCounted }
    ensures nodes { TurnKeepsNodes }
{}

/// What an act leaves as it is: how many nodes there are, the number of turns, d, and the longest
/// times.
pub fn acts_keep()
    ensures nodes { ActKeepsNodes }
    ensures turns { ActKeepsTurns }
    ensures delay { ActKeepsDelay }
    ensures longest { ActKeepsLongest }
{}

/// Turns are done one after the other.
pub fn turns_add_up()
    ensures none { NoTurnIsNone }
    ensures more { OneTurnMore }
    ensures add { TurnsAdd }
{}

/// Quiet turns: before, between and after them any holds may be placed. A hold is placed as the call
/// does it, and one that is refused changes nothing. Turns without holds between them are quiet too.
/// Quiet turns are done one after the other.
pub fn quiet_turns_add_up()
    ensures holds { HoldsAreCalls }
    ensures plain { PlainTurnsAreQuiet }
    ensures none { NoQuietTurnIsHolds }
    ensures more { OneQuietTurnMore }
    ensures add { QuietTurnsAdd }
{}

/// Turns in which nothing happens make timers later and holds shorter, and change nothing else.
pub fn still_turns_pass()
    ensures { StillTurnsPass }
{}

/// A power-on world comes of itself, and what comes of it by turns, holds and acts that aren't
/// refused comes of a power-on world too.
pub fn worlds_come_of_power_on()
    ensures power_on { HoldsAtPowerOn ComesOfPowerOn }
    ensures turns { KeptByTurns ComesOfPowerOn }
    ensures quiet { KeptByQuietTurns ComesOfPowerOn }
    ensures hold { KeptByHolds ComesOfPowerOn }
    ensures act { KeptByActs ComesOfPowerOn }
{}

/// A power-on world that can run is reached, and what comes of a reached world by turns, holds and
/// acts that aren't refused is reached too. So every reached world comes of a power-on world, and
/// can run.
pub fn worlds_stay_reached()
    ensures power_on { ReachedAtPowerOn }
    ensures turns { KeptByTurns IsReached }
    ensures quiet { KeptByQuietTurns IsReached }
    ensures hold { KeptByHolds IsReached }
    ensures act { KeptByActs IsReached }
    ensures comes { ReachedComesOfPowerOn }
    ensures runs { ReachedCanRun }
{}

/// A world is lawful at power-on, and turns, holds and acts that aren't refused keep it lawful. So
/// every world that comes of a power-on world is lawful: its tables fit its cables, every record is
/// valid, the level that a node last sent over a cable is under way to the other end or shown
/// there, and a child port leads to the parent port of the node at the other end, unless a Reset is
/// under way from there.
pub fn worlds_stay_lawful()
    ensures power_on { HoldsAtPowerOn IsLawful }
    ensures turns { KeptByTurns IsLawful }
    ensures quiet { KeptByQuietTurns IsLawful }
    ensures hold { KeptByHolds IsLawful }
    ensures act { KeptByActs IsLawful }
    ensures comes { ComesIsLawful }
    ensures reached { ReachedIsLawful }
{}

/// Whatever turns, holds and acts come in a lawful world, no node's times change.
pub fn times_stay()
    ensures { TimesStay }
{}

/// In quiet turns resets end, whatever holds are placed between them. For n nodes, whose cables
/// delay by at most d turns, no turn after the first n d makes a node enter a reset, so that each
/// node's count of resets stands still from there. It is so in components with loops too.
pub fn resets_end()
    ensures entered { NoneEnters }
    ensures counted { CountsStand }
{}

/// A component has one outcome at most: one loop, one tree or one contention.
pub fn outcomes_are_one()
    ensures { OneOutcomeAtMost }
{}
