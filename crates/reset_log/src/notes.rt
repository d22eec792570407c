//! What is noted behind the lines of a log so far.
ghost use Rattle.std.specs.Prelude.{◌≡◌, OnOk};
ghost use Rattle.std.specs.Option.{option_copied};
ghost use Rattle.reset_log.specs.Noted.{nothing, after, behind_loss, waits_of, ended, waiting, begun_at, with_packet, losses_in, last_of};
ghost use Rattle.reset_list.specs.Counts.{tallied_by};
ghost use Rattle.reset_log.specs.Notes.{noted};

use crate::cards::{Cards, compared, is_second};
use log_line::{Begun, Origin, Reset};
use quad_lanes::QuadList;
use reset_list::{Counts, LogForm, Loss, Tallies, count_losses, count_reset};
use std::alloc::{AllocError, Global};
use std::collections::BTreeMap;
use topology_stack::BusTree;

/// A reset whose packets have a line each.
#[derive(Debug, Drop)]
pub struct Pending {
    /// The line that begins it.
    pub number: u64,
    /// How many packets are still to come.
    pub left: u32,
    pub reset: Reset,
}

impl Pending {
    /// One that a line begins.
    pub(crate) fn new(alloc: Global, number: u64, begun: Begun) -> Pending
        ensures { result ≡ begun_at number begun }
    {
        Pending {
            number,
            left: begun.count,
            reset: Reset {
                origin: Origin::Core,
                time: begun.time,
                card: begun.card,
                generation: begun.generation,
                local: begun.local,
                is_error: false,
                list: QuadList::new(alloc),
            },
        }
    }

    /// Takes a packet.
    pub(crate) fn push(&mut self, quad: u32) -> Result<(), AllocError>
        ensures { OnOk result (self.new ≡ with_packet quad self.old) }
    {
        self.reset.list.push(quad)?;
        self.left = self.left.saturating_sub(1);
        Ok(())
    }
}

/// Counts the losses of ports at a reset, in the short form alone.
fn count_lost(
    alloc: Global,
    form: LogForm,
    losses: &mut Vec<Loss>,
    cards: &Cards,
    reset: &Reset,
    heard: Option<&BusTree>,
) -> Result<(), AllocError>
    ensures { OnOk result (losses.new.items ≡ losses_in form reset.now
        (last_of reset.now.card cards.now) (option_copied heard.entry) losses.old.items) }
{
    match form {
        LogForm::Text(_) | LogForm::Json(_) => Ok(()),
        LogForm::Short(_) => {
            let before = cards.last_of(reset.card);
            let old = compared(before, reset);
            count_losses(alloc, losses, reset.card, reset.time, old, heard)
        }
    }
}

/// The cards of a log, each with its last reset, and what is counted.
#[derive(Drop)]
pub(crate) struct Notes {
    pub(crate) cards: Cards,
    pub(crate) counts: Counts,
    pub(crate) tallies: Tallies,
    /// Which ports lost the node that hung on them, in the short form.
    pub(crate) losses: Vec<Loss>,
    /// By card, the reset that waits for its packets.
    pub(crate) pending: BTreeMap<u64, Pending>,
}

impl Notes {
    /// Nothing is noted.
    pub(crate) fn new(alloc: Global) -> Notes
        ensures { noted result ≡ nothing }
    {
        Notes {
            cards: Cards::new(alloc),
            counts: Counts {
                resets: 0,
                refused: 0,
            },
            tallies: Tallies::new(alloc),
            losses: Vec::new(alloc),
            pending: BTreeMap::new(alloc),
        }
    }

    /// Counts the nodes that began a reset, where its tree was heard.
    fn tally(&mut self, reset: &Reset, heard: Option<&BusTree>) -> Result<(), AllocError>
        ensures tallies { OnOk result (self.new.tallies
            ≡ tallied_by reset.now.card (option_copied heard.entry) self.old.tallies) }
        ensures cards { self.new.cards ≡ self.old.cards }
        ensures counts { self.new.counts ≡ self.old.counts }
        ensures losses { self.new.losses ≡ self.old.losses }
        ensures pending { self.new.pending ≡ self.old.pending }
    {
        match heard {
            Some(tree) => self.tallies.count_begun(reset.card, tree),
            None => Ok(()),
        }
    }

    /// Notes a reset, the tree that it is heard as if it is, and whether its list is refused.
    pub(crate) fn keep(
        &mut self,
        alloc: Global,
        form: LogForm,
        reset: &Reset,
        heard: Option<BusTree>,
        refused: bool,
    ) -> Result<(), AllocError>
        ensures { OnOk result (noted self.new ≡ after form (noted self.old) reset.now heard refused) }
    {
        let second = is_second(self.cards.last_of(reset.card), reset);
        count_lost(
            alloc,
            form,
            &mut self.losses,
            &self.cards,
            reset,
            heard.as_ref(),
        )?;
        self.tally(reset, heard.as_ref())?;
        count_reset(&mut self.counts, second, refused);
        self.cards.keep(reset, heard)
    }

    /// Takes the reset of a card that waits for its packets, if one does.
    pub(crate) fn end(&mut self, card: u64) -> Option<Pending>
        ensures taken { result ≡ waits_of card (noted self.old) }
        ensures notes { noted self.new ≡ ended card (noted self.old) }
    {
        self.pending.remove(&card)
    }

    /// Lets a reset wait for its packets, and no other one of its card.
    pub(crate) fn wait(&mut self, pending: Pending) -> Result<(), AllocError>
        ensures { OnOk result (noted self.new ≡ waiting pending (noted self.old)) }
    {
        let card = pending.reset.card;
        self.pending.remove(&card);
        self.pending.insert(card, pending)?;
        Ok(())
    }

    /// Notes that events were lost.
    pub(crate) fn forget(&mut self)
        ensures { noted self.new ≡ behind_loss (noted self.old) }
    {
        self.cards.forget_all();
    }
}
