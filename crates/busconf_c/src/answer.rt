//! Reading a list for C.
ghost use Rattle.std.specs.Prelude.{◌≡◌, IfOk, IfErr};
ghost use Rattle.busconf_c.specs.Answers.{IsTreeOf, IsStop};

use c_border::{NO_MEMORY, NO_STANDARD, REFUSED};
use c_records::{FaultRecord, standard_of, tree_record};
use std::alloc::Global;
use topology_stack::{BusTree, TreeStop, read_tree_by};

/// The bus tree of a year's standard that emits a list. Where there is none the status says why, and
/// the list's fault is told.
pub(crate) fn tree_of(
    alloc: Global,
    quads: &[u32],
    year: u32,
    fault: &mut FaultRecord,
) -> Result<BusTree, u32>
    ensures found { IfOk result (λ t. IsTreeOf year quads.now t × (fault.new ≡ fault.old)) }
    ensures none { IfErr result (λ status. IsStop year quads.now fault.old fault.new status) }
{
    let Some(standard) = standard_of(year) else {
        return Err(NO_STANDARD);
    };
    match read_tree_by(alloc, standard, quads) {
        Ok(tree) => Ok(tree),
        Err(TreeStop::Fault(found)) => {
            *fault = tree_record(found);
            Err(REFUSED)
        }
        Err(TreeStop::Memory(_)) => Err(NO_MEMORY),
    }
}
