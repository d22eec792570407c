//! Bytes in and out: sources and sinks that count their faults, in memory and over std, and what a
//! top call promises of its streams.
//!
//! A [`Source`] or a [`Sink`] fails only where its own count of faults rises, so a caller that is
//! told of a failure can name the object that failed. The fakes in memory ([`MemSource`],
//! [`SureSource`], [`MemSink`]) also tell their bytes, by which the contracts above say what was
//! read and written. The adapters ([`ReadSource`], [`WriteSink`]) over std's readers and writers
//! tell none.
#![tactic(auto)]

mod adapters;
mod memory;
mod pieces;
mod stop;
mod traits;
mod whole;

pub use adapters::{ReadSource, WriteSink};
pub use memory::{MemSink, MemSource, SureSource};
pub use pieces::read_pieces;
pub use stop::{OutOfMemory, ReadStop};
pub use traits::{Failed, Sink, Source, Taker};
pub use whole::{read_all, write_whole};
