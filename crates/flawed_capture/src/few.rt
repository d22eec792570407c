//! Lists of few nodes don't have each kind of fault.
ghost use Rattle.flawed_capture.specs.Few.{FewNodesHaveNoSuchFlaw};

/// A law: a list that is refused shows at least as many nodes as the kind of its fault wants, two with
/// `TreesLeft` and 63 with `TooMany`. A node shows itself by one packet zero.
pub fn few_nodes_have_no_such_flaw()
    ensures { FewNodesHaveNoSuchFlaw }
{}
