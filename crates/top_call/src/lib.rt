//! A call by words, whatever it is that answers: the words are judged, the bytes read, the answer
//! written; when each status comes is in `specs/Streams.antt` of `io_edges`.
//!
//! What can be asked for by words is an [`Asked`]. [`answer`] judges the words, reads the bytes and
//! writes the answer, whatever it is that answers.
#![tactic(auto)]

mod asked;
mod call;
mod status;

pub use asked::{Asked, Reply};
pub use call::answer;
pub use status::{
    MAX_INPUT, NO_FORM, NO_MEMORY, READ_FAULT, REFUSED, TOO_LONG, VALID, WRITE_FAULT,
};
