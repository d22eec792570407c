//! Laws of lines.
ghost use Rattle.script_lines.specs.Answer.{OneReading, SomeReading};
ghost use Rattle.script_lines.specs.Name.{NamesAreTested};
ghost use Rattle.script_lines.specs.Ranged.{CommandsAreInRange};
ghost use Rattle.script_lines.specs.WordFault.{LinesAreRefusedSo};

/// A law: each line of a script is nothing, a command or at fault, and no line is two of them.
#[tactic(auto, using(crate::proofs::LineRead::one_reading, crate::proofs::LineRead::some_reading))]
pub fn one_reading()
    ensures some { SomeReading }
    ensures one { OneReading }
{}

/// A law: the test of names by which lines are read is true of names alone, and of each of them.
pub fn names_are_tested()
    ensures { NamesAreTested }
{}

/// A law: the numbers of each command that a line says are in their ranges.
pub fn commands_are_in_range()
    ensures { CommandsAreInRange }
{}

/// A law: what a line is refused for, as one line for each fault says it, is what
/// [`parse_line`](crate::parse_line) answers. So each line that isn't skipped has one command or one
/// fault.
pub fn lines_are_refused_so()
    ensures { LinesAreRefusedSo }
{}
