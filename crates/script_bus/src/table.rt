//! The names of the nodes of a script.
ghost use Rattle.std.specs.Prelude.{◌≡◌, ◌++◌, ◌∷◌, [], true, false, is_some, Some, IfOk, IfSome, ◌<◌, length};
ghost use Rattle.script_told.specs.Bus.{node_named, is_declared};

use indexmap::IndexSet;
use std::alloc::Global;
use std::marker::Model;
use topology_stack::{Name, NameList, OutOfMemory};

/// So many guesses are kept.
const GUESSES: usize = 128;

/// The names of nodes, by their numbers and the other way round.
#[derive(Drop)]
pub struct NameTable {
    by_number: NameList,
    numbers: IndexSet<Name>,
    // By the end of a name a number that it may have, which is tried before all are searched. None is
    // kept before the first name.
    guesses: Vec<u8>,
}

/// Where the guess for a name stands.
fn place_of(name: &Name) -> usize
    ensures { result < 128 }
{
    match name.as_bytes() {
        [.., a, b] => (usize::from(*a) * 10 + usize::from(*b)) % GUESSES,
        [a] => usize::from(*a) % GUESSES,
        [] => 0,
    }
}

/// Keeps the number of a name as the guess for it.
fn keep_guess(guesses: &mut Vec<u8>, name: &Name, number: usize) -> Result<(), OutOfMemory> {
    if guesses.is_empty() {
        guesses.resize(GUESSES, 0)?;
    }
    if let Some(guess) = guesses.get_mut(place_of(name)) {
        *guess = (number % 256) as u8;
    }
    Ok(())
}

impl Model for NameTable {
    ghost use Rattle.std.specs.Prelude.{List, ℕ, ◌≡◌};
    ghost use Rattle.script_bus.specs.codings.Numbering.{AreDistinct};

    ghost Value = { List (List ℕ) };

    ghost view = { λ t. t.by_number };

    ghost invariant = { λ t. (t.numbers.keys ≡ t.by_number) × AreDistinct t.by_number };
}

impl NameTable {
    /// No names.
    pub fn new(alloc: Global) -> NameTable
        ensures { result ≡ [] }
    {
        NameTable {
            by_number: NameList::new(alloc),
            numbers: IndexSet::new(alloc),
            guesses: Vec::new(alloc),
        }
    }

    /// The guess for a name.
    fn guessed(&self, name: &Name) -> usize {
        match self.guesses.get(place_of(name)) {
            Some(number) => usize::from(*number),
            None => 0,
        }
    }

    /// The guess for a name, where it is the number of the node with this name.
    fn guess(&self, name: &Name) -> Option<usize>
        ensures value { IfSome result (λ number. node_named self.now name.now ≡ Some number) }
        ensures within { IfSome result (λ number. number < length self.now) }
        ensures declared { IfSome result (λ number. is_declared self.now name.now ≡ true) }
    {
        let names = self.by_number.as_slice();
        let number = self.guessed(name);
        if number >= names.len() {
            return None;
        }
        if names[number] == *name {
            return Some(number);
        }
        None
    }

    /// The number of the node with a name.
    pub fn number(&self, name: &Name) -> Option<usize>
        ensures value { result ≡ node_named self.now name.now }
        ensures within { IfSome result (λ number. number < length self.now) }
        ensures declared { is_some result ≡ is_declared self.now name.now }
    {
        match self.guess(name) {
            Some(number) => Some(number),
            None => self.numbers.get_index_of(name),
        }
    }

    /// The table with one name more, which is new and gets the next number.
    pub fn with(self, name: Name) -> Result<NameTable, OutOfMemory>
        requires { is_declared self name ≡ false }
        ensures { IfOk result (λ table. table ≡ self ++ name ∷ []) }
    {
        let NameTable {
            mut by_number,
            mut numbers,
            mut guesses,
        } = self;
        keep_guess(&mut guesses, &name, by_number.as_slice().len())?;
        numbers.insert(name.clone()?)?;
        by_number.push(name)?;
        Ok(NameTable {
            by_number,
            numbers,
            guesses,
        })
    }

    /// All names by their numbers.
    pub fn list(&self) -> &NameList
        ensures { result.now ≡ self.now }
    {
        &self.by_number
    }
}
