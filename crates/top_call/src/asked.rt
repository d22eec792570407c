//! What is asked for by words.
ghost use Rattle.std.specs.Prelude.{◌≡◌, ◌≤◌, ◌⊎◌, ◌↔◌, ℕ, List, [], length, alloc_error, Option, Some, String, IfOk, OnOk, IfSome, IsErrOf, IsOkUnless};
ghost use Rattle.std.specs.Global.{Global as GlobalValue};
ghost use Rattle.std.specs.Io.KnownBytes.{IsAtEnd};
ghost use Rattle.io_edges.specs.Faults.{Rose};
ghost use Rattle.io_edges.specs.Told.{AreLeft, IfTold, TookOver};

use io_edges::{ReadStop, Source};
use std::alloc::Global;

/// An answer: a status and a text.
pub trait Reply: Drop {
    // its status
    ghost status_of: { Self → ℕ };

    // its text
    ghost text_of: { Self → List ℕ };

    /// The status.
    fn status(&self) -> u8
        ensures { result ≡ status_of self.now };

    /// The text.
    fn text(&self) -> &[u8]
        ensures { result.now ≡ text_of self.now };
}

/// Something that can be asked for by words, and is answered by a status and a text. The status is 0,
/// or 1 where the bytes that are read are refused.
pub trait Asked: Drop {
    type Answer: Reply;

    // these words ask for it
    ghost asks: { List (String GlobalValue) → Self → Type 0 };

    // the bytes are answered by this status and this text
    ghost answers: { Self → List ℕ → ℕ → List ℕ → Type 0 };

    // what else is promised of such an answer
    ghost tells: { Self → List ℕ → ℕ → List ℕ → Type 0 } = { λ _ _ _ _. Unit {0} };

    // no bytes are read for it
    ghost is_unread: { Self → Type 0 };

    // its answer can be made
    ghost is_held: { Self → Type 0 };

    // where there was no memory for the answer, this holds of the bytes that were left and are left
    ghost wants_memory: { Self → Option (List ℕ) → Option (List ℕ) → Type 0 };

    /// What the words ask for. `None` exactly where that is nothing.
    fn of_words(words: &[String]) -> Option<Self>
        ensures { (asked : Self) → (result ≡ Some asked) ↔ asks words.now asked };

    /// The answer to what a source gives. Where bytes are read for it, the source is read to its end,
    /// and else it is left alone.
    fn read<S: Source>(self, alloc: Global, source: &mut S) -> Result<Self::Answer, ReadStop>
        requires { is_held self }
        ensures answer { IfOk result (λ answer. (bytes : List ℕ)
            × AreLeft (S.left source.old) bytes
            × answers self bytes (Self.Answer.status_of answer) (Self.Answer.text_of answer)
            × tells self bytes (Self.Answer.status_of answer) (Self.Answer.text_of answer)) }
        ensures end { OnOk result ((¬ is_unread self) → IsAtEnd (S.left source.new)) }
        ensures unread { is_unread self → source.new ≡ source.old }
        ensures unfailing { is_unread self → IsOkUnless result (ReadStop.Memory alloc_error) }
        ensures fault { IsErrOf result ReadStop.ReadFault →
            Rose (S.faults source.old) (S.faults source.new) }
        ensures long { IfTold (S.left source.old) (S.left source.new) (λ old new.
            IsErrOf result ReadStop.TooLong ↔ TookOver 1048576 old new) }
        ensures memory { IsErrOf result (ReadStop.Memory alloc_error) →
            wants_memory self (S.left source.old) (S.left source.new) }
        ensures complete { ¬ Rose (S.faults source.old) (S.faults source.new) →
            IfSome (S.left source.old) (λ bytes. length bytes ≤ 1048576 →
            IsOkUnless result (ReadStop.Memory alloc_error)) };

    ghost valid_or_refused: { (asked : Self) (bytes : List ℕ) (status : ℕ) (text : List ℕ) →
        answers asked bytes status text → (status ≡ 0) ⊎ (status ≡ 1) };

    ghost unread_is_valid: { (asked : Self) (bytes : List ℕ) (status : ℕ) (text : List ℕ) →
        is_unread asked → answers asked bytes status text → status ≡ 0 };

    ghost unread_is_alone: { (asked : Self) (bytes : List ℕ) (status : ℕ) (text : List ℕ) →
        is_unread asked → answers asked bytes status text → answers asked [] status text };
}
