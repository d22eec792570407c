//! Laws of grants.
ghost use Rattle.resource_manager.specs.Outcome.{AllocationsComeToOne, ReleasesComeToOne};

/// A law: each attempt to take a channel and bandwidth, or to give them back, comes to one answer:
/// the one that [`allocate`](crate::allocate) or [`release`](crate::release) gives.
pub fn attempts_come_to_one()
    ensures allocation { AllocationsComeToOne }
    ensures release { ReleasesComeToOne }
{}
