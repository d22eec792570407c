//! Laws of reports, and one of hops. Each function is a fact for the crates above, which call it.
ghost use Rattle.settle.specs.Hops.{HopsStay};
ghost use Rattle.settle.specs.ReadBack.{ListsAreReadBack, ListsAreTheCables};
ghost use Rattle.settle.specs.OneReport.{OneReportAtMost, OneReportedAtMost, OnePartAtMost};
ghost use Rattle.settle.specs.ReportedOutcome.{ReportedIsOutcome};
ghost use Rattle.settle.specs.QuietTurns.{QuietTurnsSettle, SettledWorldsAreReached};
ghost use Rattle.settle.specs.QuietTurns.{NodesTellTurns};
ghost use Rattle.settle.specs.SomeReport.{ReportsExist};
ghost use Rattle.settle.specs.SomeWalk.{WalksExist};

use bus_manager::hops_are_of_node_paths;
use cabling::{Cabling, cables_are_two_ended, components_exist};
use outcomes::every_bus_settles;
use topology_stack::one_tree;

/// Each list in a report of a reached world is accepted by `read_tree`, and the tree is the one
/// that `tree_from` answers for the world's cables, the reported root and the attributes of now.
/// Its nodes exist, and the order has as many of them as the tree has.
pub fn reports_are_read_back()
    ensures lists { ListsAreReadBack }
    ensures cables { ListsAreTheCables }
{
    one_tree();
}

/// A reached world has one report at most: of each component one part, and the parts in one order.
/// Of one component, in whatever world, one outcome at most is reported; and parts that hold a common
/// node are one.
pub fn reports_are_one()
    ensures world { OneReportAtMost }
    ensures reported { OneReportedAtMost }
    ensures part { OnePartAtMost }
{}

/// What is reported of a component is what it came to: the loop, tree or contention of its nodes.
pub fn reports_are_outcomes()
    ensures { ReportedIsOutcome }
{}

/// A reached world has settled once as many turns as it is given are done; and each world that has
/// settled is reached. Where the times of nodes are in their ranges, `quiet_turns` tells how many
/// it is given.
pub fn quiet_turns_settle()
    ensures plain { QuietTurnsSettle }
    ensures reached { SettledWorldsAreReached }
    ensures in_range { NodesTellTurns }
{}

/// Each world that has settled has a report, whatever memory there is to make it.
pub fn reports_exist()
    ensures { ReportsExist }
{
    components_exist();
    every_bus_settles();
}

/// From each node of a component without a core there is a walk, the order in which the nodes of the
/// component identify themselves where that node is root.
pub fn walks_exist()
    ensures { WalksExist }
{
    components_exist();
}

/// A law: the trees that cables show from two nodes of a component have the same hops. So a gap
/// count that suits a bus suits it after its root has moved.
pub fn hops_stay(c: &Cabling)
    ensures { HopsStay c.now }
{
    hops_are_of_node_paths();
    components_exist();
    cables_are_two_ended(c);
}
