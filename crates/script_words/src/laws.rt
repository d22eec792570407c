//! Laws of usages and columns.
ghost use Rattle.script_words.specs.Column.{ColumnsAreOfWords};
ghost use Rattle.script_words.specs.Usage.{UsagesAreForms};

/// A law: the usages that a sentence shows are the forms of lines, by which a script is read.
#[tactic(auto, unfolding(crate::specs::Usage::usages, line_words::specs::Words::words_by))]
pub fn usages_are_forms()
    ensures { UsagesAreForms }
{}

/// A law: the column that a sentence tells of a word is where the word stands in its line, with as
/// many words before it as there are in the line, and a blank right before it unless it is the first
/// byte.
pub fn columns_are_of_words()
    ensures { ColumnsAreOfWords }
{}
