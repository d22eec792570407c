//! What is wrong with a file of names.

/// What is wrong with a line of a file of names.
#[derive(Clone, Copy, Debug, PartialEq, Eq)]
pub enum NamesFaultKind {
    /// Its first word is no ID of a node, 0 to 62 in one or two digits.
    BadId,
    /// What comes behind the ID is no name: 1 to 64 ASCII characters that can be printed, without `"` and `\`.
    BadName,
    /// A later line names the same node.
    Twice,
}

/// What is wrong with a file of names, and where: in this line, counted from 1.
#[derive(Clone, Copy, Debug, PartialEq, Eq)]
pub struct NamesFault {
    pub line: usize,
    pub kind: NamesFaultKind,
}
