//! What differs between two buses as JSON (RFC 8259; docs/VIEW-CAPTURES.md).
#![tactic(auto)]

mod changes;

pub use changes::{changes_line, put_changes};
