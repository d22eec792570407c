//! What cablings show, slot by slot.
ghost use Rattle.slot_cabling.specs.SlotCabling.{CablingsShowTheBusTrees};

/// A law: by either standard, the bus trees are those that cablings show, where each slot of a node has
/// a port with a cable or without, or none.
pub fn cablings_show_the_bus_trees()
    ensures { CablingsShowTheBusTrees }
{}
