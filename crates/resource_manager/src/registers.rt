//! The registers, and the accesses that other nodes make to them.
ghost use Rattle.std.specs.Prelude.{◌≡◌, ◌≢◌, ℕ, ◌^◌, ◌<◌};
ghost use Rattle.resource_manager.specs.Register.{layout, initial_values, value_of, with_value, cut};
ghost use Rattle.resource_manager.specs.Response.{complete, refusal, read_reply, write_reply, lock_reply, after_lock};

use crate::register::Register;
use std::marker::Model;

/// The extended transaction code of the one lock that the registers permit.
pub const COMPARE_SWAP: u8 = 2;

/// The response code of an access that was carried out.
const COMPLETE: u8 = 0;
/// The response code of an access that the register does not permit.
const TYPE_ERROR: u8 = 6;
/// The response code of an access to an offset that has no register.
const ADDRESS_ERROR: u8 = 7;

/// The response to a read, a write or a lock of one quadlet.
#[derive(Clone, Copy, PartialEq, Eq, Debug)]
pub struct Reply {
    /// The response code: complete 0, type error 6, address error 7.
    pub rcode: u8,
    /// The value that a read or a lock found; 0 where it was refused.
    pub value: u32,
}

impl Reply {
    /// An access that was carried out, with the value that it found.
    fn complete(value: u32) -> Reply
        ensures { result ≡ complete value }
    {
        Reply {
            rcode: COMPLETE,
            value,
        }
    }

    /// An access that was refused with this response code.
    fn refusal(rcode: u8) -> Reply
        ensures { result ≡ refusal rcode }
    {
        Reply { rcode, value: 0 }
    }
}

/// The four registers of the isochronous resource manager, each within its width.
#[derive(Clone, Copy, PartialEq, Eq, Debug)]
pub struct Registers {
    bus_manager_id: u32,
    bandwidth_available: u32,
    channels_available_hi: u32,
    channels_available_lo: u32,
}

impl Model for Registers {
    ghost use Rattle.resource_manager.specs.Register.{Values, IsWithinWidths};

    ghost Value = { Values };

    ghost view = { λ r. record {
      bus_manager_id = r.bus_manager_id;
      bandwidth_available = r.bandwidth_available;
      channels_available_hi = r.channels_available_hi;
      channels_available_lo = r.channels_available_lo;
    } };

    ghost invariant = { λ r. IsWithinWidths (record {
      bus_manager_id = r.bus_manager_id;
      bandwidth_available = r.bandwidth_available;
      channels_available_hi = r.channels_available_hi;
      channels_available_lo = r.channels_available_lo;
    }) };

    ghost inverse = { λ v. record {
      bus_manager_id = v.bus_manager_id;
      bandwidth_available = v.bandwidth_available;
      channels_available_hi = v.channels_available_hi;
      channels_available_lo = v.channels_available_lo;
    } };
}

impl Default for Registers {
    ghost is_default = { λ r. r ≡ initial_values };

    fn default() -> Self {
        Registers::new()
    }
}

impl Registers {
    /// The initial values, which are those after a bus reset.
    pub fn new() -> Registers
        ensures { result ≡ initial_values }
    {
        Registers {
            bus_manager_id: Register::BusManagerId.initial(),
            bandwidth_available: Register::BandwidthAvailable.initial(),
            channels_available_hi: Register::ChannelsAvailableHi.initial(),
            channels_available_lo: Register::ChannelsAvailableLo.initial(),
        }
    }

    /// Restores the initial values, as a bus reset does.
    pub fn reset(&mut self)
        ensures { self.new ≡ initial_values }
    {
        *self = Registers::new();
    }

    /// The value of a register.
    pub fn value(&self, register: Register) -> u32
        ensures value { result ≡ value_of self.now register }
        ensures within { result < 2 ^ (layout register).width }
    {
        match register {
            Register::BusManagerId => self.bus_manager_id,
            Register::BandwidthAvailable => self.bandwidth_available,
            Register::ChannelsAvailableHi => self.channels_available_hi,
            Register::ChannelsAvailableLo => self.channels_available_lo,
        }
    }

    /// Gives a register a new value, cut to its width.
    pub(crate) fn set(&mut self, register: Register, value: u32)
        ensures { self.new ≡ with_value self.old register (cut register value) }
    {
        let kept = register.cut(value);
        match register {
            Register::BusManagerId => self.bus_manager_id = kept,
            Register::BandwidthAvailable => self.bandwidth_available = kept,
            Register::ChannelsAvailableHi => self.channels_available_hi = kept,
            Register::ChannelsAvailableLo => self.channels_available_lo = kept,
        }
    }

    /// Reads the register at an offset. Answers complete with its value, or an address error with 0
    /// where the offset is none of the four.
    pub fn read(&self, offset: u32) -> Reply
        ensures { result ≡ read_reply self.now offset }
    {
        match Register::at(offset) {
            Some(register) => Reply::complete(self.value(register)),
            None => Reply::refusal(ADDRESS_ERROR),
        }
    }

    /// Refuses to write, since the registers are changed by locks alone: with a type error, or with
    /// an address error where the offset is none of the four.
    pub fn write(&self, offset: u32, _value: u32) -> Reply
        ensures { result ≡ write_reply offset }
    {
        let exists = Register::at(offset).is_some();
        Reply::refusal(if exists { TYPE_ERROR } else { ADDRESS_ERROR })
    }

    /// Locks the register at an offset. `kind` is the extended transaction code, of which
    /// [`COMPARE_SWAP`] alone is permitted: the register becomes `value`, cut to its width, where
    /// it holds `arg`. Answers complete with the value that the register held before.
    ///
    /// An offset of none of the four is an address error, and else another kind is a type error.
    /// Then the answer's value is 0, and nothing changes.
    pub fn lock(&mut self, offset: u32, kind: u8, arg: u32, value: u32) -> Reply
        ensures reply { result ≡ lock_reply self.old offset kind }
        ensures after { self.new ≡ after_lock self.old offset kind arg value }
        ensures refused { result.rcode ≢ 0 → self.new ≡ self.old }
        ensures differs { result.value ≢ arg → self.new ≡ self.old }
    {
        let Some(register) = Register::at(offset) else {
            return Reply::refusal(ADDRESS_ERROR);
        };
        if kind != COMPARE_SWAP {
            return Reply::refusal(TYPE_ERROR);
        }
        let old = self.value(register);
        if old == arg {
            self.set(register, value);
        }
        Reply::complete(old)
    }
}
