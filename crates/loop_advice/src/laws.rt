//! What a valid advice does, and that there is one.
ghost use Rattle.loop_advice.specs.Pulled.{PullsKeepTheComponent, PullsLeaveNoCore, NoFewerPullsDo};
ghost use Rattle.loop_advice.specs.SomeAdvice.{AdvicesExist};

use cabling::{Cabling, cables_are_two_ended, trees_have_leaves};

/// Where the pulls of a valid advice are taken out, the component has the same nodes, and its core
/// is empty.
pub fn pulls_leave_a_tree(old: &Cabling, new: &Cabling)
    ensures component { PullsKeepTheComponent old.now new.now }
    ensures no_core { PullsLeaveNoCore old.now new.now }
{
    cables_are_two_ended(old);
    cables_are_two_ended(new);
}

/// No set of fewer cables than the pulls of a valid advice leaves the component an empty core.
pub fn no_fewer_pulls_do(old: &Cabling, new: &Cabling)
    ensures { NoFewerPullsDo old.now new.now }
{
    cables_are_two_ended(old);
    cables_are_two_ended(new);
    trees_have_leaves(new);
}

/// The component of each node of a cabling has an advice, and it is valid.
pub fn advices_exist()
    ensures { AdvicesExist }
{}
