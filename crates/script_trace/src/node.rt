//! What happens at a node, a line for each thing.
ghost use Rattle.std.specs.Prelude.{◌≡◌, ◌++◌, ◌<◌, codes, length, OnOk};
ghost use Rattle.port_state.specs.Ports.{port_is};
ghost use Rattle.script_text.specs.ReportText.{numbered, spaced};
ghost use Rattle.script_trace.specs.Event.{line_of, miss_line, state_words, state_number, enters, state_line, timeout_line, parent_line, child_line, child_lines, coin_digit, coin_line, id_line, signal_words, sent_line};

use cable_world::Travelling;
use port_state::{Phase, PortView, PortViews, Signal, View};
use script_text::{Name, OutOfMemory, put_name, put_numbered};
use topology_stack::put_hex;

/// Makes a text that begins with the name of a node, behind other words.
pub(crate) fn begin_lines(
    front: &mut Vec<u8>,
    words: &[u8],
    names: &[Name],
    node: u8,
) -> Result<(), OutOfMemory>
    requires { node < length names.now }
    ensures { OnOk result (front.new.items ≡ words.now ++ spaced names.now node) }
{
    front.clear();
    front.extend_from_slice(words)?;
    put_name(front, names, node)
}

/// Appends a line of these words.
fn put_line(out: &mut Vec<u8>, front: &[u8], words: &[u8]) -> Result<(), OutOfMemory>
    ensures { OnOk result (out.new.items ≡ out.old.items ++ line_of front.now words.now) }
{
    out.extend_from_slice(front)?;
    out.extend_from_slice(words)?;
    out.push(b'\n')?;
    Ok(())
}

/// Appends a line of a number between two words.
fn put_number_line(
    out: &mut Vec<u8>,
    front: &[u8],
    word: &[u8],
    number: u8,
    words: &[u8],
) -> Result<(), OutOfMemory>
    ensures { OnOk result (out.new.items
        ≡ out.old.items ++ line_of front.now (numbered word.now number ++ words.now)) }
{
    out.extend_from_slice(front)?;
    put_numbered(out, word, u64::from(number))?;
    out.extend_from_slice(words)?;
    out.push(b'\n')?;
    Ok(())
}

/// Appends the line of a turn that the node's clock missed, if it did.
pub(crate) fn put_miss(out: &mut Vec<u8>, front: &[u8], missed: bool) -> Result<(), OutOfMemory>
    ensures { OnOk result (out.new.items ≡ out.old.items ++ miss_line front.now missed) }
{
    if missed {
        put_line(out, front, b" misses a tick")?;
    }
    Ok(())
}

/// The words for a state that is entered.
fn state_words(phase: Phase) -> &'static [u8]
    ensures { result.now ≡ state_words phase }
{
    match phase {
        Phase::ResetStart => b" enters R0",
        Phase::ResetWait => b" enters R1",
        Phase::TreeStart => b" enters T0",
        Phase::ChildShake => b" enters T1",
        Phase::ParentShake => b" enters T2",
        Phase::Contend => b" enters T3",
        Phase::SelfIdent => b" enters S0",
        Phase::Ready => b" enters A0",
    }
}

/// The number of a state in the standard's order, from R0, 0, to A0, 7.
pub fn state_number(phase: Phase) -> u8
    ensures { result ≡ state_number phase }
{
    match phase {
        Phase::ResetStart => 0,
        Phase::ResetWait => 1,
        Phase::TreeStart => 2,
        Phase::ChildShake => 3,
        Phase::ParentShake => 4,
        Phase::Contend => 5,
        Phase::SelfIdent => 6,
        Phase::Ready => 7,
    }
}

/// Whether a node entered another state, or R0 once more.
fn enters(before: &View, after: &View) -> bool
    ensures { result ≡ enters before.now after.now }
{
    state_number(before.phase) != state_number(after.phase) || before.resets != after.resets
}

/// Appends the line of a state that was entered.
pub(crate) fn put_state(
    out: &mut Vec<u8>,
    front: &[u8],
    before: &View,
    after: &View,
) -> Result<(), OutOfMemory>
    ensures { OnOk result (out.new.items
        ≡ out.old.items ++ state_line front.now before.now after.now) }
{
    if enters(before, after) {
        put_line(out, front, state_words(after.phase))?;
    }
    Ok(())
}

/// Appends the line of a configuration timeout.
pub(crate) fn put_timeout(
    out: &mut Vec<u8>,
    front: &[u8],
    before: &View,
    after: &View,
) -> Result<(), OutOfMemory>
    ensures { OnOk result (out.new.items
        ≡ out.old.items ++ timeout_line front.now before.now after.now) }
{
    if !before.timed_out && after.timed_out {
        put_line(out, front, b" configuration timeout")?;
    }
    Ok(())
}

/// Appends the line of a port that came to lead to the parent.
pub(crate) fn put_parent(
    out: &mut Vec<u8>,
    front: &[u8],
    before: &View,
    after: &View,
) -> Result<(), OutOfMemory>
    ensures { OnOk result (out.new.items
        ≡ out.old.items ++ parent_line front.now before.now after.now) }
{
    if let (None, Some(port)) = (before.parent, after.parent) {
        put_number_line(out, front, b" port ", port, b" to its parent")?;
    }
    Ok(())
}

/// Whether a port leads to a child.
fn is_child(ports: &PortViews, port: u8) -> bool
    ensures { result ≡ port_is (λ q. q.child) ports.now port }
{
    let at = usize::from(port);
    at < ports.len() && ports.get(at).child
}

/// Appends the line of a port that came to lead to a child.
fn put_child(
    out: &mut Vec<u8>,
    front: &[u8],
    before: &PortViews,
    port: u8,
    after: PortView,
) -> Result<(), OutOfMemory>
    ensures { OnOk result (out.new.items
        ≡ out.old.items ++ child_line front.now before.now port after) }
{
    if after.child && !is_child(before, port) {
        put_number_line(out, front, b" port ", port, b" to a child")?;
    }
    Ok(())
}

/// Appends the lines of the ports that came to lead to a child. A node has 16 ports at most.
pub(crate) fn put_children(
    out: &mut Vec<u8>,
    front: &[u8],
    before: &PortViews,
    after: &PortViews,
) -> Result<(), OutOfMemory>
    ensures { OnOk result (out.new.items
        ≡ out.old.items ++ child_lines front.now before.now 0 after.now) }
{
    for at in 0..after.len() {
        put_child(out, front, before, at as u8, after.get(at))?;
    }
    Ok(())
}

/// Appends the value of the last coin, where it is one of the first 32 since the reset.
fn put_coin_digit(out: &mut Vec<u8>, view: &View) -> Result<(), OutOfMemory>
    requires { 0 < view.now.draws }
    ensures { OnOk result (out.new.items ≡ out.old.items ++ coin_digit view.now) }
{
    if view.draws <= 32 {
        let coin = (view.first_draws >> (view.draws - 1)) % 2;
        put_numbered(out, b" ", u64::from(coin))?;
    }
    Ok(())
}

/// Appends the line of a coin that was drawn.
pub(crate) fn put_coin(
    out: &mut Vec<u8>,
    front: &[u8],
    before: &View,
    after: &View,
) -> Result<(), OutOfMemory>
    ensures { OnOk result (out.new.items
        ≡ out.old.items ++ coin_line front.now before.now after.now) }
{
    if before.draws < after.draws {
        out.extend_from_slice(front)?;
        out.extend_from_slice(b" coin")?;
        put_coin_digit(out, after)?;
        put_numbered(out, b" wait ", u64::from(after.wait))?;
        out.push(b'\n')?;
    }
    Ok(())
}

/// Appends the line of an ID that was taken.
pub(crate) fn put_id(
    out: &mut Vec<u8>,
    front: &[u8],
    before: &View,
    after: &View,
) -> Result<(), OutOfMemory>
    ensures { OnOk result (out.new.items
        ≡ out.old.items ++ id_line front.now before.now after.now) }
{
    if let (None, Some(id)) = (before.id, after.id) {
        out.extend_from_slice(front)?;
        put_numbered(out, b" phy_ID ", u64::from(id))?;
        out.push(b'\n')?;
    }
    Ok(())
}

/// Appends that a signal is sent, by the standard's name of it.
fn put_signal(out: &mut Vec<u8>, signal: Signal) -> Result<(), OutOfMemory>
    ensures { OnOk result (out.new.items
        ≡ out.old.items ++ (codes " sends" ++ signal_words signal)) }
{
    match signal {
        Signal::Reset => out.extend_from_slice(b" sends BUS_RESET")?,
        Signal::Idle => out.extend_from_slice(b" sends IDLE")?,
        Signal::Parent => out.extend_from_slice(b" sends TX_PARENT_NOTIFY")?,
        Signal::Child => out.extend_from_slice(b" sends TX_CHILD_NOTIFY")?,
        Signal::Grant => out.extend_from_slice(b" sends TX_GRANT")?,
        Signal::Packet(quad) => {
            out.extend_from_slice(b" sends packet ")?;
            put_hex(out, 8, quad)?
        }
        Signal::Done => out.extend_from_slice(b" sends TX_IDENT_DONE")?,
    }
    Ok(())
}

/// Appends the line of a signal, if it was sent just now.
pub(crate) fn put_sent_one(
    out: &mut Vec<u8>,
    front: &[u8],
    port: u8,
    travelling: Travelling,
) -> Result<(), OutOfMemory>
    ensures { OnOk result (out.new.items
        ≡ out.old.items ++ sent_line front.now port travelling) }
{
    if travelling.age == 0 {
        out.extend_from_slice(front)?;
        put_numbered(out, b" port ", u64::from(port))?;
        put_signal(out, travelling.signal)?;
        out.push(b'\n')?;
    }
    Ok(())
}
