//! Granting a channel and bandwidth, and giving them back.
ghost use Rattle.std.specs.Prelude.{◌≡◌, ◌↔◌, ℕ, ◌+◌, ◌^◌, ◌<◌, ◌≤◌, IsTrue, OnOk, OnErr, IfErr};
ghost use Rattle.std.specs.Result.{result_err};
ghost use Rattle.resource_manager.specs.Register.{layout};
ghost use Rattle.resource_manager.specs.Channel.{place_of, seen_of, word_of, bit_of, without_bit, with_bit};
ghost use Rattle.resource_manager.specs.Grant.{change_fault, allocate_fault, release_fault, after_allocation, after_release, Takes, NamesFirstChanged};

use crate::register::Register;
use crate::registers::Registers;

/// The values of the registers of bandwidth and channels, as a node saw them.
#[derive(Clone, Copy, PartialEq, Eq, Debug)]
pub struct Seen {
    /// The value of BANDWIDTH_AVAILABLE.
    pub bandwidth: u32,
    /// The value of CHANNELS_AVAILABLE_HI.
    pub hi: u32,
    /// The value of CHANNELS_AVAILABLE_LO.
    pub lo: u32,
}

/// Why an allocation or a release was refused.
#[derive(Clone, Copy, PartialEq, Eq, Debug)]
pub enum GrantFault {
    /// The channel was seen held, at an allocation, or free, at a release.
    NoChannel,
    /// The bandwidth seen was too little for an allocation, or a release would have brought it past
    /// 4915; `left` is the bandwidth that was seen.
    NoBandwidth { left: u32 },
    /// A register no longer has the value that was seen: the first of BANDWIDTH_AVAILABLE and the
    /// channel's register that differs, by its offset, and the value that it holds.
    Changed { offset: u32, old: u32 },
}

impl Seen {
    /// The value seen of the register with the channel's bit.
    fn word(&self, channel: u8) -> u32
        ensures { result ≡ word_of self.now channel }
    {
        if channel < 32 { self.hi } else { self.lo }
    }

    /// Whether the channel, 0 to 63, was seen free.
    pub fn is_free(&self, channel: u8) -> bool
        requires { channel ≤ 63 }
        ensures { IsTrue result ↔ (bit_of self.now channel ≡ 1) }
    {
        (self.word(channel) >> place_of(channel)) & 1 == 1
    }
}

/// The place of a channel's bit in its register, from the lowest bit on.
fn place_of(channel: u8) -> u32
    ensures value { result ≡ place_of channel }
    ensures within { result < 32 }
{
    31 - u32::from(channel % 32)
}

/// What the registers of bandwidth and channels hold now.
pub fn look(regs: &Registers) -> Seen
    ensures value { result ≡ seen_of regs.now }
    ensures within { result.bandwidth < 2 ^ 13 }
{
    Seen {
        bandwidth: regs.value(Register::BandwidthAvailable),
        hi: regs.value(Register::ChannelsAvailableHi),
        lo: regs.value(Register::ChannelsAvailableLo),
    }
}

/// Refuses where the bandwidth, or else the channel's register, has changed since it was seen.
fn check_unchanged(regs: &Registers, seen: Seen, channel: u8) -> Result<(), GrantFault>
    requires { channel ≤ 63 }
    ensures fault { result_err result ≡ change_fault regs.now seen channel }
    ensures changed { IfErr result (NamesFirstChanged regs.now seen channel) }
    ensures bandwidth { OnOk result ((seen_of regs.now).bandwidth ≡ seen.bandwidth) }
    ensures word { OnOk result (word_of (seen_of regs.now) channel ≡ word_of seen channel) }
{
    let now = look(regs);
    if now.bandwidth != seen.bandwidth {
        return Err(GrantFault::Changed {
            offset: Register::BandwidthAvailable.offset(),
            old: now.bandwidth,
        });
    }
    if now.word(channel) != seen.word(channel) {
        return Err(GrantFault::Changed {
            offset: Register::of_channel(channel).offset(),
            old: now.word(channel),
        });
    }
    Ok(())
}

/// Refuses an allocation for the first cause in order.
fn check_allocate(regs: &Registers, seen: Seen, channel: u8, units: u16) -> Result<(), GrantFault>
    requires { channel ≤ 63 }
    ensures fault { result_err result ≡ allocate_fault regs.now seen channel units }
    ensures changed { IfErr result (NamesFirstChanged regs.now seen channel) }
    ensures enough { OnOk result (units ≤ (seen_of regs.now).bandwidth) }
{
    if !seen.is_free(channel) {
        return Err(GrantFault::NoChannel);
    }
    if seen.bandwidth < u32::from(units) {
        return Err(GrantFault::NoBandwidth {
            left: seen.bandwidth,
        });
    }
    check_unchanged(regs, seen, channel)
}

/// Refuses a release for the first cause in order.
fn check_release(regs: &Registers, seen: Seen, channel: u8, units: u16) -> Result<(), GrantFault>
    requires channel { channel ≤ 63 }
    requires units { units ≤ 4915 }
    ensures fault { result_err result ≡ release_fault regs.now seen channel units }
    ensures changed { IfErr result (NamesFirstChanged regs.now seen channel) }
    ensures within { OnOk result ((seen_of regs.now).bandwidth + units ≤ 4915) }
{
    if seen.is_free(channel) {
        return Err(GrantFault::NoChannel);
    }
    // The bandwidth seen may be any number, so the units are taken off the bound.
    if seen.bandwidth > Register::BandwidthAvailable.initial() - u32::from(units) {
        return Err(GrantFault::NoBandwidth {
            left: seen.bandwidth,
        });
    }
    check_unchanged(regs, seen, channel)
}

/// A word with the channel's bit made 0.
fn without_bit(word: u32, channel: u8) -> u32
    ensures { result ≡ without_bit word (place_of channel) }
{
    word & !(1 << place_of(channel))
}

/// A word with the channel's bit made 1.
fn with_bit(word: u32, channel: u8) -> u32
    ensures { result ≡ with_bit word (place_of channel) }
{
    word | 1 << place_of(channel)
}

/// Takes units off the bandwidth and makes the channel's bit 0.
fn take(regs: &mut Registers, channel: u8, units: u16)
    requires channel { channel ≤ 63 }
    requires units { units ≤ (seen_of regs.old).bandwidth }
    ensures { regs.new ≡ after_allocation regs.old channel units }
{
    let now = look(regs);
    regs.set(
        Register::BandwidthAvailable,
        now.bandwidth - u32::from(units),
    );
    regs.set(
        Register::of_channel(channel),
        without_bit(now.word(channel), channel),
    );
}

/// Puts units back to the bandwidth and makes the channel's bit 1.
fn put_back(regs: &mut Registers, channel: u8, units: u16)
    requires channel { channel ≤ 63 }
    requires units { (seen_of regs.old).bandwidth + units ≤ 4915 }
    ensures { regs.new ≡ after_release regs.old channel units }
{
    let now = look(regs);
    regs.set(
        Register::BandwidthAvailable,
        now.bandwidth + u32::from(units),
    );
    regs.set(
        Register::of_channel(channel),
        with_bit(now.word(channel), channel),
    );
}

/// Takes a channel, 0 to 63, and units of bandwidth, 0 to 4915, by what was seen of the registers.
///
/// Refused, in this order, with
/// - `NoChannel` where the channel was seen held;
/// - `NoBandwidth` where less bandwidth than the units was seen;
/// - `Changed` where the bandwidth, or else the channel's register, no longer has the value seen.
///
/// A refusal changes nothing. Else the bandwidth is less by the units and the channel's bit is 0.
pub fn allocate(regs: &mut Registers, seen: Seen, channel: u8, units: u16) -> Result<(), GrantFault>
    requires channel { channel ≤ 63 }
    requires units { units ≤ 4915 }
    ensures fault { result_err result ≡ allocate_fault regs.old seen channel units }
    ensures changed { IfErr result (NamesFirstChanged regs.old seen channel) }
    ensures ok { OnOk result (regs.new ≡ after_allocation regs.old channel units) }
    ensures takes { OnOk result (Takes regs.old regs.new channel units) }
    ensures err { OnErr result (regs.new ≡ regs.old) }
{
    check_allocate(regs, seen, channel, units)?;
    take(regs, channel, units);
    Ok(())
}

/// Gives a channel, 0 to 63, and units of bandwidth, 0 to 4915, back, by what was seen of the
/// registers.
///
/// Refused, in this order, with
/// - `NoChannel` where the channel was seen free;
/// - `NoBandwidth` where the bandwidth seen and the units together pass 4915;
/// - `Changed` where the bandwidth, or else the channel's register, no longer has the value seen.
///
/// A refusal changes nothing. Else the bandwidth is more by the units and the channel's bit is 1.
pub fn release(regs: &mut Registers, seen: Seen, channel: u8, units: u16) -> Result<(), GrantFault>
    requires channel { channel ≤ 63 }
    requires units { units ≤ 4915 }
    ensures fault { result_err result ≡ release_fault regs.old seen channel units }
    ensures changed { IfErr result (NamesFirstChanged regs.old seen channel) }
    ensures ok { OnOk result (regs.new ≡ after_release regs.old channel units) }
    // A release is a grant backwards.
    ensures takes { OnOk result (Takes regs.new regs.old channel units) }
    ensures err { OnErr result (regs.new ≡ regs.old) }
{
    check_release(regs, seen, channel, units)?;
    put_back(regs, channel, units);
    Ok(())
}
