//! The top call of `busconf`: words and bytes in, a status and a text out.
#![tactic(auto)]

mod answer;
mod asked;
mod form;
mod help;
mod input;
mod late;
mod laws;
mod reader;
mod rom;
mod script;
mod top;

pub use capture_reading::{
    CaptureFault, CaptureStop, ShortText, fault_line, one_reading, read_capture,
};
pub use config_rom::rom_line;
pub use form::{CaptureForm, Form, USAGE};
pub use help::HELP;
pub use laws::one_answer;
pub use script_run::{kind_word, script_line};
pub use top::bus_main;
pub use top_call::{
    MAX_INPUT, NO_FORM, NO_MEMORY, READ_FAULT, REFUSED, TOO_LONG, VALID, WRITE_FAULT,
};
