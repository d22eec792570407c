//! What is noted behind the resets of a dump so far.
ghost use Rattle.std.specs.Prelude.{◌≡◌, OnOk};
ghost use Rattle.std.specs.Option.{option_copied};
ghost use Rattle.reset_list.specs.Counts.{tallied_by};
ghost use Rattle.nosy_dump.specs.Noted.{nothing, last_heard, after};
ghost use Rattle.nosy_dump.specs.Notes.{noted};

use reset_list::{Counts, Tallies, count_reset};
use std::alloc::{AllocError, Global};
use topology_stack::BusTree;

/// The last tree, and what is counted. A dump is of one card, which is counted as card 0.
#[derive(Drop)]
pub(crate) struct Notes {
    pub(crate) tree: Option<BusTree>,
    pub(crate) counts: Counts,
    pub(crate) tallies: Tallies,
}

impl Notes {
    /// Nothing is noted.
    pub(crate) fn new(alloc: Global) -> Notes
        ensures { noted result ≡ nothing }
    {
        Notes {
            tree: None,
            counts: Counts {
                resets: 0,
                refused: 0,
            },
            tallies: Tallies::new(alloc),
        }
    }

    /// Counts the nodes that began a reset, where its tree was heard.
    fn tally(&mut self, heard: Option<&BusTree>) -> Result<(), AllocError>
        ensures tallies { OnOk result (self.new.tallies
            ≡ tallied_by 0 (option_copied heard.entry) self.old.tallies) }
        ensures tree { self.new.tree ≡ self.old.tree }
        ensures counts { self.new.counts ≡ self.old.counts }
    {
        match heard {
            Some(tree) => self.tallies.count_begun(0, tree),
            None => Ok(()),
        }
    }

    /// Keeps the tree that was heard last.
    fn hear(&mut self, heard: Option<BusTree>)
        ensures tree { self.new.tree ≡ last_heard self.old.tree heard }
        ensures counts { self.new.counts ≡ self.old.counts }
        ensures tallies { self.new.tallies ≡ self.old.tallies }
    {
        if let Some(tree) = heard {
            self.tree = Some(tree);
        }
    }

    /// Notes a reset, and the tree that it is heard as, if it is.
    pub(crate) fn keep(&mut self, heard: Option<BusTree>) -> Result<(), AllocError>
        ensures { OnOk result (noted self.new ≡ after (noted self.old) heard) }
    {
        let refused = heard.is_none();
        self.tally(heard.as_ref())?;
        count_reset(&mut self.counts, false, refused);
        self.hear(heard);
        Ok(())
    }
}
