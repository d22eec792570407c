//! Laws of lists and trees.
ghost use Rattle.topology_stack.specs.OneAnswer.{EachListHasATreeOrAFault, NoListHasTwoTrees, NoListHasATreeAndAFault, NoListHasTwoFaults};

/// A law: no list has two trees of one standard.
pub fn one_tree()
    ensures { NoListHasTwoTrees }
{}

/// A law: by either standard each list has a tree or a fault, no list has both, and no list has two
/// faults.
pub fn one_answer()
    ensures some { EachListHasATreeOrAFault }
    ensures tree { NoListHasATreeAndAFault }
    ensures fault { NoListHasTwoFaults }
{}
