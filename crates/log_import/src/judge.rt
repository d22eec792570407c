//! The resets of a log one after the other, up to the one that is wanted.
ghost use Rattle.std.specs.Prelude.{◌≡◌, ◌==◌, ◌<◌, ◌+◌, [], true, false, Some, None, IfOk, OnOk, if◌then◌else◌};
ghost use Rattle.std.specs.BTreeMap.{Updates};
ghost use Rattle.std.specs.Ordering.{nat_cmp};
ghost use Rattle.reset_log.specs.Entries.{entry_of};
ghost use Rattle.reset_log.specs.Told.{Verdict, IsVerdict};
ghost use Rattle.log_import.specs.codings.Standing.{plain, Stands, Advances};
ghost use Rattle.log_import.specs.codings.Verdicts.{IsJudged};

use crate::taken::is_bus;
use log_line::Reset;
use reset_log::{Known, Pending, is_repeated, is_second};
use std::alloc::{AllocError, Global};
use std::collections::BTreeMap;

/// The last resets of the cards, and how many resets were counted. The one that is wanted comes later.
#[derive(Drop)]
pub(crate) struct Judge {
    /// The number of the reset that is wanted, from 1.
    pub(crate) wanted: u64,
    pub(crate) counted: u64,
    /// By card, without a tree.
    pub(crate) last: BTreeMap<u64, Known>,
}

/// A card's last reset, without its tree.
fn plain(reset: &Reset, is_heard: bool) -> Known
    ensures { result ≡ plain reset.now is_heard }
{
    Known {
        card: reset.card,
        generation: reset.generation,
        origin: reset.origin,
        time: reset.time,
        is_heard,
        tree: None,
    }
}

/// Whether a reset that isn't passed over is heard: its controller didn't fail, all its packets are there, and they are
/// those of a bus.
fn is_heard(alloc: Global, pending: &Pending) -> Result<bool, AllocError>
    ensures { IfOk result (λ heard. IsJudged pending.now heard) }
{
    if pending.reset.is_error || pending.left != 0 {
        return Ok(false);
    }
    is_bus(alloc, &pending.reset)
}

impl Judge {
    /// No reset was counted.
    pub(crate) fn new(alloc: Global, wanted: u64) -> Judge
        requires { 0 < wanted }
        ensures stands { Stands result [] }
        ensures wanted { result.wanted ≡ wanted }
    {
        Judge {
            wanted,
            counted: 0,
            last: BTreeMap::new(alloc),
        }
    }

    /// Keeps a reset as the last one of its card.
    fn keep(&mut self, reset: &Reset, is_heard: bool) -> Result<(), AllocError>
        ensures last { OnOk result (Updates nat_cmp self.old.last self.new.last
            reset.now.card (Some (plain reset.now is_heard))) }
        ensures counted { self.new.counted ≡ self.old.counted }
        ensures wanted { self.new.wanted ≡ self.old.wanted }
    {
        self.last.insert(reset.card, plain(reset, is_heard))?;
        Ok(())
    }

    /// Counts one more reset. It says whether that is the one that is wanted.
    fn count(&mut self) -> bool
        requires { self.old.counted < self.old.wanted }
        ensures found { result ≡ true → self.old.wanted ≡ self.old.counted + 1 }
        ensures more { result ≡ false → (self.new.counted ≡ self.old.counted + 1)
            × (self.new.counted < self.new.wanted) }
        ensures wanted { self.new.wanted ≡ self.old.wanted }
        ensures last { self.new.last ≡ self.old.last }
    {
        self.counted += 1;
        self.counted == self.wanted
    }

    /// Takes a reset, and says whether it is the one that is wanted.
    pub(crate) fn take(&mut self, alloc: Global, pending: &Pending) -> Result<bool, AllocError>
        requires { self.old.counted < self.old.wanted }
        ensures found { IfOk result (λ found. Advances self.old self.new (entry_of (Some pending.now))
            (if found then Some pending.now else None)) }
        ensures below { IfOk result (λ found. found ≡ false → self.new.counted < self.new.wanted) }
    {
        let before = self.last.get(&pending.reset.card);
        if is_repeated(before, &pending.reset) {
            return Ok(false);
        }
        let second = is_second(before, &pending.reset);
        let heard = is_heard(alloc, pending)?;
        self.keep(&pending.reset, heard)?;
        if second {
            return Ok(false);
        }
        Ok(self.count())
    }

    /// Takes a reset, if there is one, and answers it if it is the one that is wanted.
    pub(crate) fn next(
        &mut self,
        alloc: Global,
        pending: Option<Pending>,
    ) -> Result<Option<Pending>, AllocError>
        requires { self.old.counted < self.old.wanted }
        ensures found { IfOk result (λ found.
            Advances self.old self.new (entry_of pending) found) }
        ensures below { IfOk result (λ found.
            found ≡ None → self.new.counted < self.new.wanted) }
    {
        match pending {
            Some(pending) => {
                if self.take(alloc, &pending)? {
                    Ok(Some(pending))
                } else {
                    Ok(None)
                }
            }
            None => Ok(None),
        }
    }
}
