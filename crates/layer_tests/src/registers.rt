//! Worked accesses, in their order.

use resource_manager::{
    Access, Answer, GrantFault, Registers, Reply, Seen, are_permitted, serve, serve_all,
};

const BUS_MANAGER_ID: u32 = 0x21C;

const BANDWIDTH: u32 = 0x220;

const HI: u32 = 0x224;

const LO: u32 = 0x228;

fn read(offset: u32) -> Access {
    Access::Read { offset }
}

fn lock(offset: u32, kind: u8, arg: u32, value: u32) -> Access {
    Access::Lock {
        offset,
        kind,
        arg,
        value,
    }
}

fn allocate(seen: Seen, channel: u8, units: u16) -> Access {
    Access::Allocate {
        seen,
        channel,
        units,
    }
}

fn release(seen: Seen, channel: u8, units: u16) -> Access {
    Access::Release {
        seen,
        channel,
        units,
    }
}

fn seen(bandwidth: u32, hi: u32) -> Seen {
    Seen {
        bandwidth,
        hi,
        lo: u32::MAX,
    }
}

fn reply(rcode: u8, value: u32) -> Answer {
    Answer::Replied(Reply { rcode, value })
}

fn refusal(fault: GrantFault) -> Answer {
    Answer::Refused(fault)
}

/// Whether fresh registers give these answers, one after the other.
fn answers_are(table: &[(Access, Answer)]) -> bool {
    let mut regs = Registers::new();
    for (access, answer) in table {
        if !access.is_permitted() || serve(&mut regs, *access) != *answer {
            return false;
        }
    }
    true
}

#[test]
fn answers_reads_writes_and_locks(rt: HostRuntime) {
    let table = [
        (lock(BANDWIDTH, 2, 4915, 4815), reply(0, 4915)),
        (lock(BANDWIDTH, 2, 4915, 4000), reply(0, 4815)),
        (read(BANDWIDTH), reply(0, 4815)),
        (
            Access::Write {
                offset: BANDWIDTH,
                value: 1,
            },
            reply(6, 0),
        ),
        (lock(BANDWIDTH, 1, 4815, 1), reply(6, 0)),
        (read(0x230), reply(7, 0)),
        (lock(BUS_MANAGER_ID, 2, 0x3F, 0), reply(0, 0x3F)),
        (lock(BUS_MANAGER_ID, 2, 0x3F, 1), reply(0, 0)),
        (lock(BUS_MANAGER_ID, 2, 0, 0xFFFF_FFC1), reply(0, 0)),
        (read(BUS_MANAGER_ID), reply(0, 1)),
        (Access::Reset, Answer::Done),
        (read(BANDWIDTH), reply(0, 4915)),
        (read(BUS_MANAGER_ID), reply(0, 0x3F)),
    ];
    assert!(rt; answers_are(&table));
}

#[test]
fn grants_by_what_was_seen(rt: HostRuntime) {
    let fresh = seen(4915, u32::MAX);
    let locked = seen(4900, u32::MAX);
    // Channel 5 is the sixth bit from the top.
    let granted = seen(4800, 0xFBFF_FFFF);
    let table = [
        (Access::Look, Answer::Saw(fresh)),
        (lock(BANDWIDTH, 2, 4915, 4900), reply(0, 4915)),
        (
            allocate(fresh, 5, 100),
            refusal(GrantFault::Changed {
                offset: BANDWIDTH,
                old: 4900,
            }),
        ),
        (allocate(locked, 5, 100), Answer::Done),
        (Access::Look, Answer::Saw(granted)),
        (allocate(granted, 5, 100), refusal(GrantFault::NoChannel)),
        (
            allocate(granted, 6, 4801),
            refusal(GrantFault::NoBandwidth { left: 4800 }),
        ),
        (Access::Reset, Answer::Done),
        (release(fresh, 5, 1), refusal(GrantFault::NoChannel)),
        (allocate(fresh, 5, 100), Answer::Done),
        (
            release(seen(4815, 0xFBFF_FFFF), 5, 101),
            refusal(GrantFault::NoBandwidth { left: 4815 }),
        ),
        (release(seen(4815, 0xFBFF_FFFF), 5, 100), Answer::Done),
        (read(HI), reply(0, u32::MAX)),
        (allocate(fresh, 32, 0), Answer::Done),
        (read(LO), reply(0, 0x7FFF_FFFF)),
        (
            allocate(fresh, 63, 0),
            refusal(GrantFault::Changed {
                offset: LO,
                old: 0x7FFF_FFFF,
            }),
        ),
    ];
    assert!(rt; answers_are(&table));
}

#[test]
fn serves_a_list(rt: HostRuntime) {
    let accesses = [lock(BANDWIDTH, 2, 4915, 7), Access::Reset, read(BANDWIDTH)];
    let mut answers = [Answer::Done; 3];
    assert!(rt; are_permitted(&accesses));
    serve_all(&mut Registers::new(), &accesses, &mut answers);
    assert!(rt; answers == [reply(0, 4915), Answer::Done, reply(0, 4915)]);
}
