//! What nodes make of equal lists.
ghost use Rattle.speed_map.specs.SameBus.{ElectOneManager, HaveOneSpeedMap};
ghost use Rattle.speed_map.specs.SameBus.{HaveOneTopologyMap, BodiesAreSealedOnce};

use topology_stack::one_tree;

/// A law: nodes whose lists are equal have the same elected node, the same rows of a speed map and,
/// in one generation, the same images of both maps.
pub fn equal_lists_make_one_bus()
    ensures manager { ElectOneManager }
    ensures speeds { HaveOneSpeedMap }
    ensures topology { HaveOneTopologyMap }
    ensures images { BodiesAreSealedOnce }
{
    one_tree();
}
