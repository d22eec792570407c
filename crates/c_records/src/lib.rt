//! A bus, its nodes and a fault as records of numbers, the fault that a record tells, its sentence,
//! and the standards by their years, for the libraries for C.
#![tactic(auto)]

mod fault;
mod records;
mod sentence;
mod shown;
mod standard;

pub use fault::{fault_in, fault_with, faults_are_read_back, tree_record};
pub use records::{BusRecord, FaultRecord, MAX_SLOTS, NodeRecord, SlotRecord};
pub use sentence::record_sentence;
pub use shown::{NO_SLOT, id_or_none, said, slot_record};
pub use standard::standard_of;
