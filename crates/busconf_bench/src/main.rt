//! Measures calls of busconf's crates, one call over and over in one process.
//!
//! Run with no words it does nothing. With a call's name and a number N it reads a capture from
//! standard input, makes the call N times in each of eleven batches, and prints the median time of
//! one call as `ns_per_call median X`. The calls are:
//!
//! - `read_tree`: the tree of the capture's first quadlets, made and dropped
//! - `read_whole`, `read_stream`: the capture read from memory and its text written to memory, the whole
//!   capture first or as the program takes it, in pieces
//! - `hops`: the longest path of that tree
//! - `rows`: the rows of its speed map
//! - `crc16`: the CRC of the first quadlets
//! - `first_bad_pair`: the pair check of 65,536 pairs, the capture's first pair over and over
//! - `plain_read`: all quadlets of the same buffer added up, to compare the pair check with
//! - `tick_idle_field`, `tick_idle_packed`: a tick of a node's machine that raises the timer alone
//! - `tick_busy_field`, `tick_busy_packed`: a tick that takes a row of the step table, and a sixth of the
//!   reset before it
//! - `component_line`, `core_line`, `walk_line`: these of 63 nodes in a line, whatever the capture
//! - `advice_line`, `check_line`: which of their cables to pull, and whether this advice is valid
//! - the same with `_star`, each node below the first that has one of its sixteen ports left, and
//!   with `_looped`, each node joined to the next eight, by 504 cables in all
//! - `turn_line`, `turn_star`, `turn_looped`: a turn of 63 nodes in a world that does one turn after the
//!   other
//! - `settle_line`, `settle_star`, `settle_looped`: 63 nodes from power-on until the bus has settled,
//!   which is 73,520 turns, in a world that passes over turns
//! - `rom`: a configuration ROM, which stands on standard input in place of a capture, written,
//!   decoded, and told with its blocks as text
//! - `run`, `trace`: a script, which stands on standard input in place of a capture, run from its bytes
//!   to its text, or traced to the text of its trace
#![tactic(auto)]

mod cablings;
mod calls;
mod captures;
mod machines;
mod nodes;
mod worlds;

use calls::{Call, measured};
use std::io::Read;
use std::process::ExitCode;
use std::rt::Env;
use std::{env, io};

/// The words after the program's name: a call and a number, or none.
fn words_of<R: Env + AllocGlobal>(rt: &R) -> io::Result<Option<(Call, u32)>> {
    let mut args = env::args(rt)?;
    let _name = args.next();
    let (Some(name), Some(number)) = (args.next(), args.next()) else {
        return Ok(None);
    };
    let call = Call::named(name.as_str());
    let times = number.as_str().parse::<u32>().ok();
    Ok(call.zip(times))
}

fn main(rt: HostRuntime) -> io::Result<ExitCode> {
    let Some((call, times)) = words_of(&rt)? else {
        return Ok(ExitCode::SUCCESS);
    };
    let mut bytes = Vec::new(rt.alloc());
    rt.stdin().read_to_end(&mut bytes)?;
    match measured(&rt, call, times, &bytes)? {
        Some(tenths) => {
            println!(rt; "ns_per_call median {}.{}", tenths / 10, tenths % 10)?;
            Ok(ExitCode::SUCCESS)
        }
        None => {
            eprintln!(rt; "busconf_bench: standard input is no capture of a bus tree, or no ROM")?;
            Ok(ExitCode::from(1))
        }
    }
}
