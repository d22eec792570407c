//! What the dump of a script shows.
ghost use Rattle.wave_laws.specs.Run.{DumpsShowTheRun};
ghost use Rattle.wave_laws.specs.Apart.{NumbersAreApart, StatesAreApart, IdsAreApart, RolesAreApart, LevelsAreApart};

use cable_world::acts_keep;
use topology_stack::one_tree;

/// A law: who reads the dump of a script line by line, and keeps for each variable its last value, knows
/// at each moment of the run, behind each act and each turn, what the world shows then: of each node its
/// state, its ID, whether its configuration timed out and whether it is the root, and of each of its
/// ports its role and the level that it shows. What is new at a moment stands under the moment's time.
pub fn dumps_show_the_run()
    ensures { DumpsShowTheRun }
{
    one_tree();
    acts_keep();
}

/// A law: no two numbers, states, IDs, roles or levels have one value. So the last value of a variable
/// tells what was shown.
pub fn values_are_apart()
    ensures numbers { NumbersAreApart }
    ensures states { StatesAreApart }
    ensures ids { IdsAreApart }
    ensures roles { RolesAreApart }
    ensures levels { LevelsAreApart }
{}
