//! What was found and what was wanted where a script is refused, in a sentence.
ghost use Rattle.std.specs.Prelude.{◌≡◌, ◌≤◌, ◌<◌, ◌+◌, ◌-◌, ◌++◌, ◌^◌, take, drop, length, slice_index_or, [], OnOk, IfOk, IfSome};
ghost use Rattle.std.specs.Str.Lines.{strip_carriage_return};
ghost use Rattle.script_lines.specs.Words.{words_of};
ghost use Rattle.script_words.specs.Column.{found};
ghost use Rattle.script_words.specs.Before.{names_in, feed_lines};
ghost use Rattle.script_words.specs.LineFault.{IsLineFault, IsFaultAt};
ghost use Rattle.script_words.specs.Sentence.{name_place, names_wanted, told_later, no_node_at, no_node_sentence, free_wanted, in_use_sentence, port_place, ports_wanted, no_port_at, late_wanted, bus_wanted, whole_sentence, sentence_of, sentence_in, sentence};

use crate::before::{is_port, ports_of, put_names, without_return};
use crate::cables::{CableEnd, far_end};
use crate::column::{put_field, put_found};
use crate::line_sentence::{put_twice_sentence, put_value_sentence, put_word_sentence};
use crate::misfit::put_range_sentence;
use crate::said::{Opening, said};
use crate::text::{Text, lines_of, same, word_at, words_of};
use port_state::TimeRanges;
use script_lines::{Kind, LineStop, ScriptFault, parse_line_with};
use std::alloc::Global;
use std::marker::Model;
use topology_stack::OutOfMemory;

/// The place of the first name of a line that isn't declared.
fn name_place(alloc: Global, lines: &[Text], words: &[Text]) -> Result<usize, OutOfMemory>
    ensures value { IfOk result (λ place. place ≡ name_place lines.now words.now) }
    ensures few { IfOk result (λ place. place ≤ 3) }
{
    match ports_of(alloc, lines, word_at(words, 1))? {
        Some(_) => Ok(3),
        None => Ok(1),
    }
}

/// Appends the names that these lines declare.
fn put_names_wanted(alloc: Global, out: &mut Vec<u8>, lines: &[Text]) -> Result<(), OutOfMemory>
    ensures { OnOk result (out.new.items
        ≡ out.old.items ++ names_wanted (names_in lines.now)) }
{
    let mut names = Vec::new(alloc);
    put_names(alloc, &mut names, lines)?;
    if names.is_empty() {
        return out.extend_from_slice(b"a name of a node, but no line before declares one.");
    }
    out.extend_from_slice(b"a name of a node:")?;
    out.extend_from_slice(&names)?;
    out.extend_from_slice(b".")?;
    Ok(())
}

/// Whether a line behind declares a name, with so many ports.
fn told_later(ports: Option<u32>) -> &'static [u8]
    ensures { result.now ≡ told_later ports }
{
    match ports {
        None => b"\n",
        Some(_) => b" A later line declares it.\n",
    }
}

fn put_no_node_at(
    alloc: Global,
    out: &mut Vec<u8>,
    around: &Around,
    line: &[u8],
    words: &[Text],
    place: usize,
) -> Result<(), OutOfMemory>
    requires { place ≤ 3 }
    ensures { OnOk result (out.new.items ≡ out.old.items
        ++ no_node_at around.now.before.now around.now.behind.now line.now words.now place) }
{
    let later = ports_of(alloc, around.behind, word_at(words, place))?;
    put_found(out, line, words, place)?;
    put_names_wanted(alloc, out, around.before)?;
    out.extend_from_slice(told_later(later))?;
    Ok(())
}

fn put_no_node(
    alloc: Global,
    out: &mut Vec<u8>,
    around: &Around,
    line: &[u8],
    words: &[Text],
) -> Result<(), OutOfMemory>
    ensures { OnOk result (out.new.items ≡ out.old.items
        ++ no_node_sentence around.now.before.now around.now.behind.now line.now words.now) }
{
    let place = name_place(alloc, around.before, words)?;
    put_no_node_at(alloc, out, around, line, words, place)
}

/// The place of the first port of a line that its node doesn't have.
fn port_place(alloc: Global, lines: &[Text], words: &[Text]) -> Result<usize, OutOfMemory>
    ensures value { IfOk result (λ place. place ≡ port_place lines.now words.now) }
    ensures some { IfOk result (λ place. 2 ≤ place) }
    ensures few { IfOk result (λ place. place ≤ 4) }
{
    let ports = ports_of(alloc, lines, word_at(words, 1))?;
    if is_port(word_at(words, 2), ports) {
        Ok(4)
    } else {
        Ok(2)
    }
}

fn put_ports_wanted(out: &mut Vec<u8>, name: &[u8], ports: u32) -> Result<(), OutOfMemory>
    ensures { OnOk result (out.new.items ≡ out.old.items ++ ports_wanted name.now ports) }
{
    out.extend_from_slice(b"a port of ")?;
    out.extend_from_slice(name)?;
    put_field(out, b", which has ", u64::from(ports))?;
    out.extend_from_slice(b", counted from 0.\n")?;
    Ok(())
}

fn put_no_port_at(
    alloc: Global,
    out: &mut Vec<u8>,
    lines: &[Text],
    line: &[u8],
    words: &[Text],
    place: usize,
) -> Result<(), OutOfMemory>
    requires some { 1 ≤ place }
    requires few { place ≤ 4 }
    ensures { OnOk result (out.new.items
        ≡ out.old.items ++ no_port_at lines.now line.now words.now place) }
{
    let name = word_at(words, place - 1);
    let ports = ports_of(alloc, lines, name)?.unwrap_or(0);
    put_found(out, line, words, place)?;
    put_ports_wanted(out, name, ports)?;
    Ok(())
}

fn put_no_port(
    alloc: Global,
    out: &mut Vec<u8>,
    lines: &[Text],
    line: &[u8],
    words: &[Text],
) -> Result<(), OutOfMemory>
    ensures { OnOk result (out.new.items ≡ out.old.items
        ++ no_port_at lines.now line.now words.now (port_place lines.now words.now)) }
{
    let place = port_place(alloc, lines, words)?;
    put_no_port_at(alloc, out, lines, line, words, place)
}

/// Which place a line has that came too late.
fn late_wanted(words: &[Text]) -> &'static [u8]
    ensures { result.now ≡ late_wanted words.now }
{
    if same(word_at(words, 0), b"delay") {
        b"it before all other commands.\n"
    } else if same(word_at(words, 0), b"times") {
        b"it once, before all commands but delay.\n"
    } else if same(word_at(words, 0), b"clock") {
        b"it before all commands but delay, times, node and clock.\n"
    } else {
        b"it before all commands but delay, times and node.\n"
    }
}

/// Appends what stands at a place of a line, and what was wanted there.
fn put_at(
    out: &mut Vec<u8>,
    line: &[u8],
    words: &[Text],
    place: usize,
    wanted: &[u8],
) -> Result<(), OutOfMemory>
    ensures { OnOk result (out.new.items
        ≡ out.old.items ++ (found line.now words.now place ++ wanted.now)) }
{
    put_found(out, line, words, place)?;
    out.extend_from_slice(wanted)?;
    Ok(())
}

/// What was wanted where a line has a fault of one of these kinds by the bus.
fn bus_wanted(kind: Kind) -> &'static [u8]
    ensures { result.now ≡ bus_wanted kind }
{
    match kind {
        Kind::TooManyNodes => b"63 nodes at most.\n",
        Kind::SameNode => b"another node than the one at the other end.\n",
        Kind::NotPlugged => b"a port with a cable in it.\n",
        Kind::NotSettled => {
            b"a node in a tree of the last settle or plan, and no plug, pull, reset or config since.\n"
        }
        Kind::NoManager => b"a node whose tree has one with link 1 and contender 1.\n",
        Kind::NotManager => {
            b"the bus manager of its tree, by a line manager behind the last reset.\n"
        }
        _ => b"",
    }
}

/// What is said of a fault that is of no one word.
fn whole_sentence(kind: Kind) -> &'static [u8]
    ensures { result.now ≡ whole_sentence kind }
{
    match kind {
        Kind::InUse => b"Found a cable in one of the two ports, wanted both free.\n",
        Kind::TooManyTurns => {
            b"Found more than 2000000 turns in all, wanted fewer: each settle and plan has its turns, and so has the end.\n"
        }
        Kind::TooManyMaps => b"Found a 101st line maps, wanted 100 at most.\n",
        _ => b"",
    }
}

/// Appends where the cable in a port leads.
#[tactic(auto, unfolding(crate::specs::Sentence::free_wanted))]
fn put_free_wanted(out: &mut Vec<u8>, far: &CableEnd) -> Result<(), OutOfMemory>
    ensures { OnOk result (out.new.items ≡ out.old.items ++ free_wanted far.now) }
{
    let free = b"a free port: another, or a pull before. The cable in it leads to port ";
    put_field(out, free, u64::from(far.port))?;
    out.extend_from_slice(b" of ")?;
    out.extend_from_slice(far.name)?;
    out.extend_from_slice(b".\n")?;
    Ok(())
}

/// Appends that the port at a place is in use, whose cable leads to this end.
fn put_in_use_at(
    out: &mut Vec<u8>,
    line: &[u8],
    words: &[Text],
    place: usize,
    far: &CableEnd,
) -> Result<(), OutOfMemory>
    requires { place ≤ 4 }
    ensures { OnOk result (out.new.items
        ≡ out.old.items ++ (found line.now words.now place ++ free_wanted far.now)) }
{
    put_found(out, line, words, place)?;
    put_free_wanted(out, far)
}

/// Appends which port of a `plug` is in use, and where its cable leads.
fn put_in_use(
    alloc: Global,
    out: &mut Vec<u8>,
    lines: &[Text],
    line: &[u8],
    words: &[Text],
) -> Result<(), OutOfMemory>
    ensures { OnOk result (out.new.items
        ≡ out.old.items ++ in_use_sentence lines.now line.now words.now) }
{
    if let Some(far) = far_end(alloc, lines, &CableEnd::at(words, 1))? {
        return put_in_use_at(out, line, words, 2, &far);
    }
    if let Some(far) = far_end(alloc, lines, &CableEnd::at(words, 3))? {
        return put_in_use_at(out, line, words, 4, &far);
    }
    out.extend_from_slice(whole_sentence(Kind::InUse))
}

/// The lines before a line of a script, and those behind it.
#[derive(Drop)]
struct Around<'p, 'a> {
    before: &'p [Text<'a>],
    behind: &'p [Text<'a>],
}

/// Appends the sentence on a fault of a line with these words, among these lines.
fn put_words_sentence(
    alloc: Global,
    out: &mut Vec<u8>,
    said: Opening,
    around: &Around,
    line: &[u8],
    words: &[Text],
    kind: Kind,
) -> Result<(), OutOfMemory>
    requires some { 1 ≤ said.delay }
    requires few { said.delay ≤ 16 }
    requires are { words.now ≡ words_of line.now }
    ensures { OnOk result (out.new.items
        ≡ out.old.items
        ++ sentence_of said.delay said.times around.now.before.now around.now.behind.now
        line.now words.now kind) }
{
    match kind {
        Kind::Word => put_word_sentence(alloc, out, line, words),
        Kind::Number => put_value_sentence(alloc, out, said.times, line, words),
        Kind::Name => put_value_sentence(alloc, out, said.times, line, words),
        Kind::Range => put_range_sentence(alloc, out, said, around.before, line, words),
        Kind::Twice => put_twice_sentence(out, line, words),
        Kind::Late => put_at(out, line, words, 0, late_wanted(words)),
        Kind::NoNode => put_no_node(alloc, out, around, line, words),
        Kind::NoPort => put_no_port(alloc, out, around.before, line, words),
        Kind::TooManyNodes => put_at(out, line, words, 0, bus_wanted(kind)),
        Kind::SameNode => put_at(out, line, words, 3, bus_wanted(kind)),
        Kind::NotPlugged => put_at(out, line, words, 2, bus_wanted(kind)),
        Kind::NotSettled => put_at(out, line, words, 1, bus_wanted(kind)),
        Kind::NoManager => put_at(out, line, words, 1, bus_wanted(kind)),
        Kind::NotManager => put_at(out, line, words, 1, bus_wanted(kind)),
        Kind::InUse => put_in_use(alloc, out, around.before, line, words),
        Kind::TooManyTurns => out.extend_from_slice(whole_sentence(kind)),
        Kind::TooManyMaps => out.extend_from_slice(whole_sentence(kind)),
    }
}

/// The same, of a line's own words.
fn put_line_sentence(
    alloc: Global,
    out: &mut Vec<u8>,
    said: Opening,
    around: &Around,
    line: &[u8],
    kind: Kind,
) -> Result<(), OutOfMemory>
    requires some { 1 ≤ said.delay }
    requires few { said.delay ≤ 16 }
    ensures { OnOk result (out.new.items
        ≡ out.old.items
        ++ sentence_of said.delay said.times around.now.before.now around.now.behind.now
        line.now (words_of line.now) kind) }
{
    let words = words_of(alloc, line)?;
    put_words_sentence(alloc, out, said, around, line, words.as_slice(), kind)
}

/// The line of this number, from 0; no bytes behind the last.
fn whole_line<'a>(lines: &[Text<'a>], number: usize) -> &'a [u8]
    ensures { result.now ≡ slice_index_or lines.now number [] }
{
    match lines.get(number) {
        Some(line) => line.as_bytes(),
        None => &[],
    }
}

/// What a line is at fault for by its own words.
fn fault_of(alloc: Global, line: &[u8], times: TimeRanges) -> Result<Option<Kind>, OutOfMemory>
    ensures { IfOk result (λ fault. IsLineFault times line.now fault) }
{
    match parse_line_with(alloc, line, times) {
        Ok(_command) => Ok(None),
        Err(LineStop::Fault(kind)) => Ok(Some(kind)),
        Err(LineStop::Memory(error)) => Err(error),
    }
}

/// The first lines, so many of them at most.
fn first_lines<'p, 'a>(lines: &'p [Text<'a>], count: usize) -> &'p [Text<'a>]
    ensures { result.now ≡ take count lines.now }
{
    if count < lines.len() {
        &lines[..count]
    } else {
        lines
    }
}

/// The lines behind the first, where so many are the first.
fn later_lines<'p, 'a>(lines: &'p [Text<'a>], count: usize) -> &'p [Text<'a>]
    ensures { result.now ≡ drop count lines.now }
{
    if count < lines.len() {
        &lines[count..]
    } else {
        &lines[lines.len()..]
    }
}

/// The lines of a script, so that what is said of several faults cuts it once. In a contract it is the
/// list of what stands between its line feeds.
#[derive(Debug, Drop)]
pub struct CutScript<'a> {
    lines: Vec<Text<'a>>,
    said: Opening,
}

impl<'a> Model for CutScript<'a> {
    ghost use Rattle.std.specs.Prelude.{◌≡◌, ◌≤◌, List, ℕ};
    ghost use Rattle.script_words.specs.Before.{delay_of, ranges_of};

    ghost Value = { List (List ℕ) };

    ghost view = { λ s. s.lines.items };

    ghost invariant = { λ s. (s.said.delay ≡ delay_of s.lines.items)
        × (s.said.times ≡ ranges_of s.lines.items) × (1 ≤ s.said.delay) × (s.said.delay ≤ 16) };
}

impl<'a> CutScript<'a> {
    /// The lines of a script.
    pub fn new(alloc: Global, script: &'a [u8]) -> Result<CutScript<'a>, OutOfMemory>
        ensures value { IfOk result (λ cut. cut ≡ feed_lines script.now) }
        ensures few { IfOk result (λ cut. length cut ≤ length script.now + 1) }
    {
        let lines = lines_of(alloc, script)?;
        let said = said(alloc, lines.as_slice())?;
        Ok(CutScript { lines, said })
    }

    /// How many lines there are, with the one behind the last line feed.
    pub fn len(&self) -> usize
        ensures { result ≡ length self.now }
    {
        self.lines.len()
    }

    /// What the line of this number, from 0, is at fault for by its own words, which needs no bus. Behind
    /// the last line there is no fault.
    pub fn line_fault(&self, alloc: Global, number: usize) -> Result<Option<Kind>, OutOfMemory>
        ensures { IfOk result (λ fault. IsFaultAt self.now number fault) }
    {
        fault_of(
            alloc,
            whole_line(self.lines.as_slice(), number),
            self.said.times,
        )
    }

    /// Appends the sentence on a fault, as [`put_sentence`](crate::put_sentence) does.
    pub fn put_sentence(
        &self,
        alloc: Global,
        out: &mut Vec<u8>,
        fault: ScriptFault,
    ) -> Result<(), OutOfMemory>
        ensures { OnOk result (out.new.items ≡ out.old.items ++ sentence_in self.now fault) }
    {
        let lines = self.lines.as_slice();
        let number = fault.line.saturating_sub(1) as usize;
        let line = without_return(whole_line(lines, number));
        let around = Around {
            before: first_lines(lines, number),
            behind: later_lines(lines, fault.line as usize),
        };
        put_line_sentence(alloc, out, self.said, &around, line, fault.kind)
    }
}

/// Appends a sentence on the fault of a script, as `script_run` finds it, and then a line feed: what
/// stands there, and what was wanted. It names the word, its number in the line from 1 and the column of
/// its first byte from 1; and the words, the range or the names that may stand there, or of times which
/// inequality fails. Ranges go with the delay and the times that the script's first lines say.
pub fn put_sentence(
    alloc: Global,
    out: &mut Vec<u8>,
    script: &[u8],
    fault: ScriptFault,
) -> Result<(), OutOfMemory>
    requires { length script.now ≤ 1048576 }
    ensures { OnOk result (out.new.items ≡ out.old.items ++ sentence script.now fault) }
{
    let script = CutScript::new(alloc, script)?;
    script.put_sentence(alloc, out, fault)
}
