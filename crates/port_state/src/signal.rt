//! What goes over a cable, what a port shows of it, and where a node stands.

/// What a node sends on a port: a level of the lines, a grant, a packet, or the end of a subtree's
/// packets.
#[derive(Clone, Copy, Debug, Default, PartialEq, Eq)]
pub enum Signal {
    /// BUS_RESET.
    Reset,
    /// IDLE.
    #[default]
    Idle,
    /// TX_PARENT_NOTIFY: you are my parent.
    Parent,
    /// TX_CHILD_NOTIFY: you are my child.
    Child,
    /// TX_GRANT: identify yourself and all below you.
    Grant,
    /// The first quadlet of a self-ID packet.
    Packet(u32),
    /// TX_IDENT_DONE: I have identified myself, and all below me have.
    Done,
}

/// The level that a port last heard.
#[derive(Clone, Copy, Debug, Default, PartialEq, Eq)]
pub enum Level {
    /// BUS_RESET.
    Reset,
    /// IDLE.
    #[default]
    Idle,
    /// RX_PARENT_NOTIFY.
    Parent,
    /// RX_CHILD_NOTIFY.
    Child,
}

/// The state of a node. The names in brackets are the standard's.
#[derive(Clone, Copy, Debug, PartialEq, Eq)]
pub enum Phase {
    /// Reset goes out on every port (R0: Reset start).
    ResetStart,
    /// The neighbours still reset (R1: Reset wait).
    ResetWait,
    /// All neighbours but one are to ask this node to be their parent (T0: Tree ID start).
    TreeStart,
    /// The children are to see that they were taken (T1: Child handshake).
    ChildShake,
    /// The parent is to take this node, or there is none (T2: Parent handshake).
    ParentShake,
    /// Two neighbours asked each other, and each waits a while (T3: Root contention).
    Contend,
    /// The nodes identify themselves one after the other (S0, S1, S2 and S4: Self-ID).
    SelfIdent,
    /// This node has its ID (A0: Idle).
    Ready,
}
