//! The resets in a recording of a whole bus by a TI PCILynx, as `nosy-dump --output` of the Linux
//! kernel writes it: its records, what is shown of them, and the call that shows it as it comes.
//!
//! A dump is records, each behind its length. Between two bus resets stand the self-ID packets of one
//! list (`Record`, `DumpReset`), which is shown as `reset_list` shows one (`show_dump`).
#![tactic(auto)]

mod dump;
mod form;
mod laws;
mod notes;
mod record;
mod texts;
mod values;

pub use dump::show_dump;
pub use form::dump_form;
pub use laws::dumps_have_one_text;
pub use record::{DumpFault, DumpReset, Record, record_of};
