//! The calls of the library for C, `libbusconf`, that take no memory: packets, a reader in memory
//! of fixed size, registers, the CRC, gap counts, the line and the sentence of a fault, and the
//! events of a trace (docs/LIBRARY.md). No function of this crate is handed an allocator. Each
//! export calls the crate that it is named for and states its clauses again, over records of
//! numbers.
#![tactic(auto)]

mod crc;
mod event;
mod fault;
mod gap;
mod links;
mod packet;
mod reader;
mod reading;
mod records;
mod registers;
mod shown;
mod version;
