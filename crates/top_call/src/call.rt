//! The call.
ghost use Rattle.std.specs.Prelude.{◌≡◌, ◌≢◌, ℕ, ◌≤◌, ◌⊎◌, ◌↔◌, List, [], length, IfSome};
ghost use Rattle.std.specs.Io.KnownBytes.{Appends, IsAtEnd};
ghost use Rattle.io_edges.specs.Faults.{Rose};
ghost use Rattle.io_edges.specs.Told.{AppendsStart, AreLeft, IfTold, TookOver};
ghost use Rattle.io_edges.specs.Streams.{IsWritten, KeepsStreams, Writes};
ghost use Rattle.top_call.specs.Asked.{AnswersAsked, AsksSome, AsksUnread};
ghost use Rattle.top_call.specs.Asked.{EachHasAnAnswer, NoneHasTwoAnswers};

use crate::asked::{Asked, Reply};
use crate::status::{NO_FORM, NO_MEMORY, READ_FAULT, TOO_LONG, WRITE_FAULT};
use io_edges::{ReadStop, Sink, Source, write_whole};
use std::alloc::Global;

/// Answers what was asked for, as `answer` has it.
fn answer_asked<A: Asked, S: Source, K: Sink>(
    alloc: Global,
    asked: A,
    source: &mut S,
    sink: &mut K,
) -> u8
    requires held { A.is_held asked }
    requires one { NoneHasTwoAnswers (A.answers asked) }
    ensures status { result ≤ 6 }
    ensures form { result ≢ 2 }
    ensures answer { IsWritten (A.answers asked) result
        (S.left source.old) (K.written sink.old) (K.written sink.new) }
    ensures tells { (result ≡ 0) ⊎ (result ≡ 1) → (bytes : List ℕ)
        × AreLeft (S.left source.old) bytes × (text : List ℕ) × A.tells asked bytes result text
        × Appends (K.written sink.old) (K.written sink.new) text }
    ensures end { (result ≡ 0) ⊎ (result ≡ 1) ⊎ (result ≡ 4) →
        (¬ A.is_unread asked) → IsAtEnd (S.left source.new) }
    ensures read_fault { result ≡ 3 → Rose (S.faults source.old) (S.faults source.new) }
    ensures write_fault { result ≡ 4 → Rose (K.faults sink.old) (K.faults sink.new) }
    ensures too_long { IfTold (S.left source.old) (S.left source.new) (λ old new.
        (result ≡ 6) ↔ TookOver 1048576 old new) }
    ensures memory { result ≡ 5 →
        A.wants_memory asked (S.left source.old) (S.left source.new) }
    ensures unfailing { A.is_unread asked → (result ≢ 1) × (result ≢ 3) × (result ≢ 6) }
    ensures unread { A.is_unread asked → source.new ≡ source.old }
    ensures unwritten { 2 ≤ result → result ≢ 4 → sink.new ≡ sink.old }
    ensures part { result ≡ 4 → IfSome (S.left source.old) (λ bytes.
        (status : ℕ) × (text : List ℕ) × A.answers asked bytes status text
        × AppendsStart (K.written sink.old) (K.written sink.new) text) }
    ensures exact { IfSome (S.left source.old) (λ bytes. (status : ℕ) (text : List ℕ) →
        A.answers asked bytes status text → (result ≡ status) ⊎ (3 ≤ result)) }
    ensures complete { ¬ Rose (S.faults source.old) (S.faults source.new) →
        ¬ Rose (K.faults sink.old) (K.faults sink.new) →
        IfSome (S.left source.old) (λ bytes. length bytes ≤ 1048576 →
        (status : ℕ) (text : List ℕ) → A.answers asked bytes status text →
        ((result ≡ status) × Appends (K.written sink.old) (K.written sink.new) text)
        ⊎ (result ≡ 5)) }
    ensures sure { IfSome (S.left source.old) (λ bytes. (status : ℕ) (text : List ℕ) →
        A.answers asked bytes status text → K.surely_takes sink.old (length text) →
        K.faults sink.new ≡ K.faults sink.old) }
    ensures alone { A.is_unread asked → (status : ℕ) (text : List ℕ) →
        A.answers asked [] status text →
        Writes K.written K.faults K.surely_takes result sink.old sink.new status text }
{
    let answer = match asked.read(alloc, source) {
        Ok(answer) => answer,
        Err(ReadStop::ReadFault) => return READ_FAULT,
        Err(ReadStop::TooLong) => return TOO_LONG,
        Err(ReadStop::Memory(_)) => return NO_MEMORY,
    };
    match write_whole(sink, answer.text()) {
        Ok(()) => answer.status(),
        Err(_) => WRITE_FAULT,
    }
}

/// Does what the words ask for: reads the bytes from `source`, writes the text of the answer to
/// `sink`, and gives the status.
///
/// The words are judged first; then the source is read to its end, where bytes are read for what is
/// asked for; then the answer is made; and only then is anything written. Each answer that is asked for
/// can be made, and there is one to all bytes.
pub fn answer<A: Asked, S: Source, K: Sink>(
    alloc: Global,
    words: &[String],
    source: &mut S,
    sink: &mut K,
) -> u8
    requires held { (asked : A) → A.asks words.now asked → A.is_held asked }
    requires some { EachHasAnAnswer (AnswersAsked (A.asks words.now) A.answers) }
    requires one { NoneHasTwoAnswers (AnswersAsked (A.asks words.now) A.answers) }
    // The answer is written, unless another status has its cause.
    ensures streams { KeepsStreams S.left S.faults K.written K.faults K.surely_takes
        (AsksUnread (A.asks words.now) A.is_unread) (AnswersAsked (A.asks words.now) A.answers)
        result source.old source.new sink.old sink.new }
    // What is promised of it beside that it is the answer holds of what is written.
    ensures tells { (result ≡ 0) ⊎ (result ≡ 1) → (asked : A) → A.asks words.now asked →
        (bytes : List ℕ) × AreLeft (S.left source.old) bytes
        × (text : List ℕ) × A.tells asked bytes result text
        × Appends (K.written sink.old) (K.written sink.new) text }
    ensures no_form { (result ≡ 2) ↔ (¬ AsksSome (A.asks words.now)) }
    ensures unfailing { AsksUnread (A.asks words.now) A.is_unread →
        (result ≢ 1) × (result ≢ 3) × (result ≢ 6) }
    // What is known where there was no memory.
    ensures memory { result ≡ 5 → (asked : A) → A.asks words.now asked →
        A.wants_memory asked (S.left source.old) (S.left source.new) }
{
    match A::of_words(words) {
        None => NO_FORM,
        Some(asked) => answer_asked(alloc, asked, source, sink),
    }
}
