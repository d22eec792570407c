//! What a report of bus resets shows of the list of self-ID packets of each, as text or in JSON, what it counts,
//! and why it may end early.
//!
//! A list is shown behind the head of its reset, with what changed since the tree before (`show_list`), or told
//! as the last members of an object (`put_list`). The reports stand above: of a log, and of a recording.
#![tactic(auto)]

mod counts;
mod form;
mod hear;
mod laws;
mod losses;
mod same;
mod sentence;
mod shown;
mod stop;
mod texts;
mod times;
mod values;

pub use counts::{Counts, Tallies, Tally, count_reset};
pub use form::LogForm;
pub use laws::{lists_are_judged_as_read, losses_are_counted, shortest_times_are_kept};
pub use losses::{Loss, count_losses};
pub use shown::{ListShown, show_list, show_short};
pub use stop::{LogStop, MAX_LOG};
pub use times::between;
pub use values::put_list;
