//! Laws of reaches and of the choice of a root. Each function is a fact for the crates above, which
//! call it.
ghost use Rattle.root_plan.specs.SomeChoice.{ReachesExist, BestRootsExist};

use speed_map::rows_exist;

/// A law: each node of a bus has a reach, and each bus with a candidate has a best root.
pub fn best_roots_exist()
    ensures reaches { ReachesExist }
    ensures best { BestRootsExist }
{
    rows_exist();
}
