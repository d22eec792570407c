//! Laws of captures.
ghost use Rattle.capture_reading.specs.OneReading.{EachCaptureHasATreeOrAFault, NoCaptureHasTwoTrees, NoCaptureHasATreeAndAFault, NoCaptureHasTwoFaults};

use quad_lanes::{capture_is_read_back, good_pairs_are_a_capture};
use topology_stack::{one_answer as one_list_answer, one_tree};

/// A law: by either standard each capture spells a tree or has a fault, none spells two trees, none
/// spells a tree and has a fault, and none has two faults.
pub fn one_reading()
    ensures some { EachCaptureHasATreeOrAFault }
    ensures tree { NoCaptureHasTwoTrees }
    ensures apart { NoCaptureHasATreeAndAFault }
    ensures fault { NoCaptureHasTwoFaults }
{
    capture_is_read_back();
    good_pairs_are_a_capture();
    one_tree();
    one_list_answer();
}
