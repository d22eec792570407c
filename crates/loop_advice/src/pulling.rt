//! Pulling what is advised.
ghost use Rattle.loop_advice.specs.Certificate.{IsCertificate};
ghost use Rattle.loop_advice.specs.Pulled.{ArePulled};

use crate::advice::Advice;
use cabling::{Cabling, cables_are_two_ended};

/// Pulls the cables that a valid advice for the component of a node says, and no others. It takes
/// no memory. [`check`](crate::check) tests whether an advice is valid, and what
/// [`advise`](crate::advise) answers is.
pub fn pull_advised(cabling: &mut Cabling, node: u8, advice: &Advice)
    requires { IsCertificate cabling.old node advice.now.pulls advice.now.kept }
    ensures { ArePulled cabling.old cabling.new advice.now.pulls }
{
    cables_are_two_ended(cabling);
    for cable in advice.pulls.as_slice() {
        match cabling.pull(cable.a) {
            Ok(_) => {}
            Err(_) => unreachable!(),
        }
    }
}
