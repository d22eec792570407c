//! What is known of a bus beside its world.
use script_text::Name;
use std::marker::Model;

/// What is known of the bus of a script beside its world. In a contract it is the legend of the
/// definition.
#[derive(Debug, Drop)]
pub struct Legend<'a> {
    /// The name of each node.
    pub names: &'a [Name],
    /// So many nanoseconds are as long as the delay of a cable, where the script says it.
    pub nanoseconds: Option<u16>,
}

impl<'a> Model for Legend<'a> {
    ghost use Rattle.script_trace.specs.Voice.{Legend};

    ghost Value = { Legend };

    ghost view = { λ l. record { names = l.names.now; nanoseconds = l.nanoseconds } };
}
