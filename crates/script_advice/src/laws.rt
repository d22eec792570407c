//! Laws of advices.
ghost use Rattle.script_advice.specs.OneAdvice.{ScriptsHaveOneAdvice, AdvicesLeaveNoLoop, AdvicesEndWithoutLoop};

use cable_world::{acts_keep, outcomes_are_one};
use settle::{reports_are_outcomes, reports_are_read_back};
use topology_stack::one_tree;

/// A law: no script has two advices. Its advice has one text, or one fault of one line.
pub fn scripts_have_one_advice()
    ensures { ScriptsHaveOneAdvice }
{
    one_tree();
    acts_keep();
}

/// A law: an advice ends with the report of the bus that is left, whose world comes of power-on, and no
/// component of it is a loop.
pub fn advices_leave_no_loop()
    ensures report { AdvicesLeaveNoLoop }
    ensures text { AdvicesEndWithoutLoop }
{
    one_tree();
    acts_keep();
    reports_are_read_back();
    reports_are_outcomes();
    outcomes_are_one();
}
