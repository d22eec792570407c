//! What paths between the nodes of a bus are.
ghost use Rattle.std.specs.Prelude.{◌≡◌, ◌<◌, ℕ, List, length};
ghost use Rattle.topology_stack.specs.Tree.{Tree, walk, IsBusTree};
ghost use Rattle.speed_map.specs.Path.{HasOnePath};

/// A law: between two nodes of a bus there is no second path. So a byte of a speed map tells the
/// speed of the path between two nodes.
pub fn one_path()
    ensures { (t : Tree) (from to : ℕ) → IsBusTree t → from < length (walk t) →
        HasOnePath t from to }
{}
