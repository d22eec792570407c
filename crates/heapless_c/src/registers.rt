//! The registers of an isochronous resource manager.
ghost use Rattle.std.specs.Prelude.{◌≡◌, ◌≢◌, ◌≤◌, ◌<◌, ℕ};
ghost use Rattle.resource_manager.specs.Register.{cut, initial_values, with_value};
ghost use Rattle.resource_manager.specs.Response.{read_reply, write_reply, lock_reply, after_lock};
ghost use Rattle.resource_manager.specs.Channel.{seen_of};
ghost use Rattle.resource_manager.specs.Grant.{allocate_fault, release_fault, after_allocation, after_release};
ghost use Rattle.heapless_c.specs.Registers.{registers_record, values_in, reply_record, seen_record, seen_in, grant_record, AnswersGrant, Attempts};

use crate::records::{GrantRecord, RegistersRecord, ReplyRecord, SeenRecord};
use bus_manager::attempt;
use c_border::{OK, OUT_OF_RANGE, REFUSED};
use resource_manager::{
    COMPARE_SWAP, GrantFault, Register, Registers, Reply, Seen, allocate, look, release,
};

/// Gives a register a new value, cut to its width, by a lock of the value that it holds.
fn set(regs: &mut Registers, register: Register, value: u32)
    ensures { regs.new ≡ with_value regs.old register (cut register value) }
{
    let held = regs.value(register);
    let _reply = regs.lock(register.offset(), COMPARE_SWAP, held, value);
}

/// The registers of a record.
fn registers_in(shown: &RegistersRecord) -> Registers
    ensures { result ≡ values_in shown.now }
{
    let mut regs = Registers::new();
    set(&mut regs, Register::BusManagerId, shown.bus_manager_id);
    set(
        &mut regs,
        Register::BandwidthAvailable,
        shown.bandwidth_available,
    );
    set(
        &mut regs,
        Register::ChannelsAvailableHi,
        shown.channels_available_hi,
    );
    set(
        &mut regs,
        Register::ChannelsAvailableLo,
        shown.channels_available_lo,
    );
    regs
}

/// The record of registers.
fn registers_record(regs: &Registers) -> RegistersRecord
    ensures { result ≡ registers_record regs.now }
{
    RegistersRecord {
        bus_manager_id: regs.value(Register::BusManagerId),
        bandwidth_available: regs.value(Register::BandwidthAvailable),
        channels_available_hi: regs.value(Register::ChannelsAvailableHi),
        channels_available_lo: regs.value(Register::ChannelsAvailableLo),
    }
}

/// The record of a response.
fn reply_record(reply: Reply) -> ReplyRecord
    ensures { result ≡ reply_record reply }
{
    ReplyRecord {
        value: reply.value,
        rcode: reply.rcode,
    }
}

/// What a record says was seen.
fn seen_in(shown: &SeenRecord) -> Seen
    ensures { result ≡ seen_in shown.now }
{
    Seen {
        bandwidth: shown.bandwidth,
        hi: shown.hi,
        lo: shown.lo,
    }
}

/// The record of a refusal.
fn grant_record(fault: GrantFault) -> GrantRecord
    ensures { result ≡ grant_record fault }
{
    match fault {
        GrantFault::NoChannel => GrantRecord {
            detail: 0,
            now: 0,
            kind: 1,
        },
        GrantFault::NoBandwidth { left } => GrantRecord {
            detail: left,
            now: 0,
            kind: 2,
        },
        GrantFault::Changed { offset, old } => GrantRecord {
            detail: offset,
            now: old,
            kind: 3,
        },
    }
}

/// Gives the registers the values that a bus reset restores.
#[unsafe(no_mangle)]
pub extern "C" fn busconf_registers_reset(regs: &mut RegistersRecord)
    ensures { regs.new ≡ registers_record initial_values }
{
    *regs = registers_record(&Registers::new());
}

/// Reads the register at an offset.
#[unsafe(no_mangle)]
pub extern "C" fn busconf_registers_read(
    regs: &RegistersRecord,
    offset: u32,
    reply: &mut ReplyRecord,
)
    ensures { reply.new ≡ reply_record (read_reply (values_in regs.now) offset) }
{
    *reply = reply_record(registers_in(regs).read(offset));
}

/// Refuses to write the register at an offset.
#[unsafe(no_mangle)]
pub extern "C" fn busconf_registers_write(
    regs: &RegistersRecord,
    offset: u32,
    value: u32,
    reply: &mut ReplyRecord,
)
    ensures { reply.new ≡ reply_record (write_reply offset) }
{
    *reply = reply_record(registers_in(regs).write(offset, value));
}

/// Locks the register at an offset.
#[unsafe(no_mangle)]
pub extern "C" fn busconf_registers_lock(
    regs: &mut RegistersRecord,
    offset: u32,
    kind: u8,
    arg: u32,
    value: u32,
    reply: &mut ReplyRecord,
)
    ensures reply { reply.new ≡ reply_record (lock_reply (values_in regs.old) offset kind) }
    ensures after { regs.new
        ≡ registers_record (after_lock (values_in regs.old) offset kind arg value) }
{
    let mut held = registers_in(regs);
    *reply = reply_record(held.lock(offset, kind, arg, value));
    *regs = registers_record(&held);
}

/// Looks at the bandwidth and the channels.
#[unsafe(no_mangle)]
pub extern "C" fn busconf_registers_look(regs: &RegistersRecord, seen: &mut SeenRecord)
    ensures { seen.new ≡ seen_record (seen_of (values_in regs.now)) }
{
    let found = look(&registers_in(regs));
    *seen = SeenRecord {
        bandwidth: found.bandwidth,
        hi: found.hi,
        lo: found.lo,
    };
}

/// Takes a channel and units of bandwidth, by what was seen.
#[unsafe(no_mangle)]
pub extern "C" fn busconf_registers_allocate(
    regs: &mut RegistersRecord,
    seen: &SeenRecord,
    channel: u8,
    units: u16,
    fault: &mut GrantRecord,
) -> u32
    ensures { AnswersGrant channel units
        (allocate_fault (values_in regs.old) (seen_in seen.now) channel units)
        (after_allocation (values_in regs.old) channel units) regs.old regs.new fault.old fault.new
        result }
{
    if channel > 63 || units > 4915 {
        return OUT_OF_RANGE;
    }
    let mut held = registers_in(regs);
    match allocate(&mut held, seen_in(seen), channel, units) {
        Ok(()) => {
            *regs = registers_record(&held);
            OK
        }
        Err(found) => {
            *fault = grant_record(found);
            REFUSED
        }
    }
}

/// Gives a channel and units of bandwidth back, by what was seen.
#[unsafe(no_mangle)]
pub extern "C" fn busconf_registers_release(
    regs: &mut RegistersRecord,
    seen: &SeenRecord,
    channel: u8,
    units: u16,
    fault: &mut GrantRecord,
) -> u32
    ensures { AnswersGrant channel units
        (release_fault (values_in regs.old) (seen_in seen.now) channel units)
        (after_release (values_in regs.old) channel units) regs.old regs.new fault.old fault.new
        result }
{
    if channel > 63 || units > 4915 {
        return OUT_OF_RANGE;
    }
    let mut held = registers_in(regs);
    match release(&mut held, seen_in(seen), channel, units) {
        Ok(()) => {
            *regs = registers_record(&held);
            OK
        }
        Err(found) => {
            *fault = grant_record(found);
            REFUSED
        }
    }
}

/// The attempt of a node to become bus manager.
#[unsafe(no_mangle)]
pub extern "C" fn busconf_registers_attempt(
    regs: &mut RegistersRecord,
    id: u8,
    manager: &mut u8,
) -> u32
    ensures { Attempts id (values_in regs.old) regs.old regs.new manager.old manager.new result }
{
    if id > 62 {
        return OUT_OF_RANGE;
    }
    let mut held = registers_in(regs);
    if held.value(Register::BusManagerId) != 0x3F {
        *manager = held.value(Register::BusManagerId) as u8;
        return REFUSED;
    }
    let _bid = attempt(&mut held, id);
    *regs = registers_record(&held);
    *manager = id;
    OK
}
