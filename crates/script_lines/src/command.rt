//! The commands of a script.

use self_id::Standard;
use topology_stack::Name;

/// The command of a line. A `-` of `config` is `None`, and so is a key of a node that has no value of
/// its own where it isn't given.
#[derive(Clone, Debug, Drop, PartialEq, Eq)]
pub enum Command {
    /// `node NAME PORTS` and pairs of key and value. Coin k is bit k of `coin_word`.
    Node {
        name: Name,
        ports: u8,
        speed: u8,
        link: bool,
        contender: bool,
        force: bool,
        power: u8,
        gap: u8,
        gap_reset: bool,
        hold: Option<u16>,
        short: Option<u16>,
        long: Option<u16>,
        coin_word: u64,
        coin_len: u8,
        seed: Option<u32>,
        packed: bool,
    },
    /// `plug NAME PORT NAME PORT`
    Plug {
        a: Name,
        a_port: u32,
        b: Name,
        b_port: u32,
    },
    /// `pull NAME PORT`
    Pull {
        name: Name,
        port: u32,
    },
    /// `reset NAME`
    Reset {
        name: Name,
    },
    /// `turn K`
    Turn {
        count: u32,
    },
    /// `hold NAME PORT K`
    Hold {
        name: Name,
        port: u32,
        turns: u16,
    },
    /// `settle`
    Settle,
    /// `config NAME ROOT GAP`
    Config {
        name: Name,
        root_id: Option<u8>,
        gap: Option<u8>,
    },
    /// `csr NAME read OFFSET`
    CsrRead {
        name: Name,
        offset: u32,
    },
    /// `csr NAME write OFFSET VALUE`
    CsrWrite {
        name: Name,
        offset: u32,
        value: u32,
    },
    /// `csr NAME lock OFFSET KIND ARG VALUE`
    CsrLock {
        name: Name,
        offset: u32,
        kind: u8,
        arg: u32,
        value: u32,
    },
    /// `look NAME`
    Look {
        name: Name,
    },
    /// `allocate NAME CHANNEL UNITS`
    Allocate {
        name: Name,
        channel: u8,
        units: u16,
    },
    /// `release NAME CHANNEL UNITS`
    Release {
        name: Name,
        channel: u8,
        units: u16,
    },
    /// `manager NAME`
    Manager {
        name: Name,
    },
    /// `plan NAME`
    Plan {
        name: Name,
    },
    /// `maps NAME`
    Maps {
        name: Name,
    },
    /// `delay D`
    Delay {
        delay: u8,
    },
    /// `times STANDARD NANOSECONDS`
    Times {
        standard: Standard,
        nanoseconds: u32,
    },
    /// `clock NAME PPM`, or `clock NAME PPM TURN`
    Clock {
        name: Name,
        ppm: u32,
        first: Option<u32>,
    },
}
