//! What C sees of a script's fault.

/// The fault of a script.
#[repr(C)]
#[derive(Clone, Copy, Debug, PartialEq, Eq)]
pub struct ScriptFaultRecord {
    /// The line, from 1.
    pub line: u32,
    /// The number of the kind.
    pub kind: u8,
}
