//! The places that are marked while blocks are looked for.
ghost use Rattle.std.specs.Prelude.{◌≡◌, ◌≢◌, ◌<◌, ℕ, false, true};
ghost use Rattle.config_rom.specs.codings.Marks.{has_place, has_mark, Adds};
ghost use Rattle.config_rom.specs.declared.block.BlockKind.{BlockKind};

use crate::block::BlockKind;

/// The places that a ROM has at most.
pub(crate) const PLACES: usize = 256;

/// A set of places below 256.
#[derive(Clone, Copy)]
pub(crate) struct PlaceSet {
    marked: [bool; PLACES],
}

impl PlaceSet {
    fn new() -> PlaceSet
        ensures { (at : ℕ) → has_place result at ≡ false }
    {
        PlaceSet {
            marked: [false; PLACES],
        }
    }

    fn insert(&mut self, at: usize)
        requires { at < 256 }
        ensures held { has_place self.new at ≡ true }
        ensures others { (p : ℕ) → p ≢ at → has_place self.new p ≡ has_place self.old p }
    {
        self.marked[at] = true;
    }

    fn has(&self, at: usize) -> bool
        requires { at < 256 }
        ensures { result ≡ has_place self.now at }
    {
        self.marked[at]
    }
}

/// The blocks that are reached, as far as they are known: those below place 256, and the least
/// place from 256 on.
#[derive(Clone, Copy)]
pub(crate) struct Marks {
    directories: PlaceSet,
    leaves: PlaceSet,
    beyond: Option<usize>,
}

impl Marks {
    pub(crate) fn new() -> Marks
        ensures none { (k : BlockKind) (p : ℕ) → has_mark result k p ≡ false }
        ensures beyond { result.beyond ≡ None }
    {
        Marks {
            directories: PlaceSet::new(),
            leaves: PlaceSet::new(),
            beyond: None,
        }
    }

    /// The least marked place from 256 on.
    pub(crate) fn beyond(&self) -> Option<usize>
        ensures { result ≡ self.now.beyond }
    {
        self.beyond
    }

    pub(crate) fn has(&self, kind: BlockKind, at: usize) -> bool
        requires { at < 256 }
        ensures { result ≡ has_mark self.now kind at }
    {
        match kind {
            BlockKind::Directory => self.directories.has(at),
            BlockKind::Leaf => self.leaves.has(at),
        }
    }

    /// Marks a block.
    pub(crate) fn add(&mut self, kind: BlockKind, at: usize)
        ensures { Adds self.old self.new kind at }
    {
        if at >= PLACES {
            self.beyond = Some(match self.beyond {
                Some(least) => least.min(at),
                None => at,
            });
            return;
        }
        match kind {
            BlockKind::Directory => self.directories.insert(at),
            BlockKind::Leaf => self.leaves.insert(at),
        }
    }
}
