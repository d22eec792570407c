//! Which plans suit a component, and what they come to.
ghost use Rattle.std.specs.Prelude.{◌<◌, IsFalse, length};
ghost use Rattle.settle.specs.Planned.{PlansSuit, CarriedPlansComeOut};

use cable_world::WorldRun;
use cabling::components_exist;
use outcomes::forced_roots_settle;
use topology_stack::one_tree;

/// A law: where the component of a node, which exists, stands as a tree, a plan that was chosen for
/// the tree that its list tells suits it. The world isn't spent.
pub fn plans_suit<W: WorldRun>(world: &W, from: u8)
    requires sound { IsFalse (W.is_spent world.now) }
    requires there { from < length (W.world world.now).cabling }
    ensures { PlansSuit (W.world world.now) from }
{
    one_tree();
    components_exist();
}

/// A law: in each world that comes of power-on, where a plan suits the component of a node, and its
/// packet is sent and the quiet turns are done, the node that had the plan's root ID is reported as
/// root, and every node of the component has the plan's gap count.
pub fn plans_come_out()
    ensures { CarriedPlansComeOut }
{
    forced_roots_settle();
    components_exist();
}
