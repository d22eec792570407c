//! A list of quadlets that is judged when it has ended.
ghost use Rattle.std.specs.Prelude.{◌≡◌, List, ℕ, [], ◌∷◌, ◌++◌};
ghost use Rattle.self_id.specs.declared.standard.Standard.TheVariants.{Ieee2000};
ghost use Rattle.topology_stack.specs.Tree.{Tree, IsBusTreeOf, emits};
ghost use Rattle.topology_stack.specs.Refused.{Refused};
ghost use Rattle.topology_stack.specs.Reader.{StandsFor};
ghost use Rattle.topology_stack.specs.Answer.{IfFault};
ghost use Rattle.std.specs.Prelude.{Ok, Err, IfOk};
ghost use Rattle.topology_stack.specs.declared.fault.TreeFault.{TreeFault};
ghost use Rattle.bus_cli.specs.codings.Late.{IsListOf};

use arrayvec::ArrayVec;
use std::alloc::Global;
use std::marker::Model;
use topology_stack::{BusTree, TreeReader, TreeStop, read_tree};

/// The quadlets of 63 groups of three packets.
const MAX_QUADS: usize = 189;

/// The quadlets of a list as they come. While they can be a bus's they are only kept, and are judged
/// all at once at the end. A list that goes on past 189 is judged from there on as it comes.
#[derive(Debug, Drop)]
pub(crate) struct LateReader {
    quads: ArrayVec<u32, MAX_QUADS>,
    longer: Option<TreeReader>,
}

impl Model for LateReader {
    ghost use Rattle.bus_cli.specs.codings.Late.{Late};

    ghost Value = { Late };

    ghost view = { λ r. record { quads = r.quads.items; longer = r.longer } };
}

impl LateReader {
    /// A reader that was given nothing.
    pub(crate) fn new() -> LateReader
        ensures { IsListOf result [] }
    {
        LateReader {
            quads: ArrayVec::new(),
            longer: None,
        }
    }

    /// A reader of trees that was given the quadlets that are kept.
    fn judged(&self) -> TreeReader
        ensures { StandsFor result self.now.quads }
    {
        let mut reader = TreeReader::new();
        let quads = self.quads.as_slice();
        for quad in quads {
            reader.push(*quad);
        }
        reader
    }

    /// Gives the reader the next quadlet of the list.
    pub(crate) fn push(&mut self, quad: u32)
        ensures { (l : List ℕ) → IsListOf self.old l → IsListOf self.new (l ++ quad ∷ []) }
    {
        if let Some(reader) = &mut self.longer {
            reader.push(quad);
        } else if self.quads.len() < MAX_QUADS {
            self.quads.push(quad);
        } else {
            let mut reader = self.judged();
            reader.push(quad);
            self.longer = Some(reader);
        }
    }

    /// The bus tree that emits the list that the reader was given, or the list's fault. Want of
    /// memory comes only where a bus tree emits the list.
    pub(crate) fn finish(&self, alloc: Global) -> Result<BusTree, TreeStop>
        ensures found { IfOk result (λ t. (l : List ℕ) → IsListOf self.now l
            → IsBusTreeOf Ieee2000 t × (emits t ≡ l)) }
        ensures refused { IfFault result (λ f. (l : List ℕ) → IsListOf self.now l
            → Refused Ieee2000 l f) }
        ensures exact { (l : List ℕ) (f : TreeFault) → IsListOf self.now l → Refused Ieee2000 l f
            → result ≡ Err (TreeStop.Fault f) }
    {
        if let Some(reader) = &self.longer {
            return reader.finish(alloc);
        }
        match read_tree(alloc, &self.quads) {
            // Want of memory says nothing of a list that has a fault.
            Err(TreeStop::Memory(_)) => self.judged().finish(alloc),
            answer => answer,
        }
    }
}
