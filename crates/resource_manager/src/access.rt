//! Any list of calls to the registers.
ghost use Rattle.std.specs.Prelude.{◌≡◌, ◌↔◌, ℕ, ◌+◌, ◌≤◌, All, IsTrue, length};
ghost use Rattle.std.specs.Result.{result_err};
ghost use Rattle.std.specs.List.{zip};
ghost use Rattle.resource_manager.specs.Access.{IsPermitted, IsRefusal, done_unless, answer_of, after, after_all, answers_of};
ghost use Rattle.resource_manager.specs.Calls.{MovesChannels, FreedBetweenGrants, FreedBeforeGrant, IsByHand, Conserves};

use crate::grant::{GrantFault, Seen, allocate, look, release};
use crate::registers::{Registers, Reply};

/// A call to the registers.
#[derive(Clone, Copy, PartialEq, Eq, Debug)]
pub enum Access {
    /// Reads the register at an offset.
    Read {
        offset: u32,
    },
    /// Tries to write the register at an offset.
    Write {
        offset: u32,
        value: u32,
    },
    /// Locks the register at an offset.
    Lock {
        offset: u32,
        kind: u8,
        arg: u32,
        value: u32,
    },
    /// Restores the initial values.
    Reset,
    /// Looks at the bandwidth and the channels.
    Look,
    /// Takes a channel and units of bandwidth, by what was seen.
    Allocate {
        seen: Seen,
        channel: u8,
        units: u16,
    },
    /// Gives a channel and units of bandwidth back, by what was seen.
    Release {
        seen: Seen,
        channel: u8,
        units: u16,
    },
}

/// What a call answered.
#[derive(Clone, Copy, PartialEq, Eq, Debug)]
pub enum Answer {
    /// The response to a read, a write or a lock.
    Replied(Reply),
    /// What a look showed.
    Saw(Seen),
    /// A reset, an allocation or a release was done.
    Done,
    /// An allocation or a release was refused.
    Refused(GrantFault),
}

impl Access {
    /// Whether a channel that the call names is 0 to 63, and its units are at most 4915.
    pub fn is_permitted(&self) -> bool
        ensures { IsTrue result ↔ IsPermitted self.now }
    {
        match self {
            Access::Allocate { channel, units, .. } | Access::Release { channel, units, .. } => {
                *channel <= 63 && *units <= 4915
            }
            _ => true,
        }
    }
}

impl From<Result<(), GrantFault>> for Answer {
    ghost from_gives = { λ r a. a ≡ done_unless (result_err r) };

    fn from(outcome: Result<(), GrantFault>) -> Answer {
        match outcome {
            Ok(()) => Answer::Done,
            Err(fault) => Answer::Refused(fault),
        }
    }
}

/// Whether each call of a list is permitted, as [`serve_all`] requires.
pub fn are_permitted(accesses: &[Access]) -> bool
    ensures { IsTrue result ↔ All IsPermitted accesses.now }
{
    accesses.iter().all(|access| access.is_permitted())
}

/// Makes one call. [`Access::is_permitted`] tests whether it may be made.
#[tactic(auto, using(crate::proofs::Steps::channels_moved))]
pub fn serve(regs: &mut Registers, access: Access) -> Answer
    requires { IsPermitted access }
    ensures answer { result ≡ answer_of regs.old access }
    ensures after { regs.new ≡ after regs.old access }
    ensures refusal { IsRefusal result → regs.new ≡ regs.old }
    ensures channels { MovesChannels regs.old regs.new access result }
{
    match access {
        Access::Read { offset } => Answer::Replied(regs.read(offset)),
        Access::Write { offset, value } => Answer::Replied(regs.write(offset, value)),
        Access::Lock {
            offset,
            kind,
            arg,
            value,
        } => Answer::Replied(regs.lock(offset, kind, arg, value)),
        Access::Reset => {
            regs.reset();
            Answer::Done
        }
        Access::Look => Answer::Saw(look(regs)),
        Access::Allocate {
            seen,
            channel,
            units,
        } => allocate(regs, seen, channel, units).into(),
        Access::Release {
            seen,
            channel,
            units,
        } => release(regs, seen, channel, units).into(),
    }
}

/// Makes the calls one after another, and writes what each answers to its place in `answers`, which
/// has one for each call. [`are_permitted`] tests whether the calls may be made.
pub fn serve_all(regs: &mut Registers, accesses: &[Access], answers: &mut [Answer])
    requires permitted { All IsPermitted accesses.now }
    requires places { length answers.old ≡ length accesses.now }
    ensures answers { answers.new ≡ answers_of regs.old accesses.now }
    ensures after { regs.new ≡ after_all regs.old accesses.now }

    // A channel that was granted, or was held at first, isn't granted before a call frees it.
    ensures freed_between { FreedBetweenGrants (zip accesses.now answers.new) }
    ensures freed_before { FreedBeforeGrant regs.old (zip accesses.now answers.new) }

    // Grants and releases neither lose nor make bandwidth or channels.
    ensures conserves { All (λ call. ¬ IsByHand call.0 call.1) (zip accesses.now answers.new) →
        Conserves regs.old regs.new (zip accesses.now answers.new) }
{
    for (i, access) in accesses.iter().enumerate() {
        answers[i] = serve(regs, *access);
    }
}
