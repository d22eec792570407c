//! What the programs share: which words name files, what is wrong with words, streams that note
//! something, and the way from file to file.
#![tactic(auto)]

mod call;
mod commands;
mod file_lines;
mod files;
mod front;
mod pipe;
mod program;
mod shown;
mod words;

pub use call::Call;
pub use commands::{BUSCONF, BUSVIEW, nearest};
pub use file_lines::FileLines;
pub use files::FileCount;
pub use front::{FrontSink, FrontSource};
pub use pipe::PipeWriter;
pub use program::{Program, run};
pub use shown::Shown;
pub use words::WordsFault;
