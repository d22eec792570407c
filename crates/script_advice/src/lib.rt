//! What is advised for the bus of a script: which cables to pull, and the text of it. And two laws:
//! a script has one advice, and none leaves a loop.
//!
//! Which cables of a component are advised stands in `loop_advice`; `script_run` carries an advice
//! out.
#![tactic(auto)]

mod advice;
mod laws;

pub use advice::{LoopAdvice, advice_text, advices};
pub use laws::{advices_leave_no_loop, scripts_have_one_advice};
pub use topology_stack::{Name, OutOfMemory};
