//! Made scripts: nodes that are joined to a tree, and each cable pulled and plugged again.
ghost use Rattle.std.specs.Prelude.{◌≡◌, ◌++◌, ◌<◌, ◌≤◌, length, IfOk, OnOk};
ghost use Rattle.rand_pcg.specs.Pcg.{pcg32};
ghost use Rattle.script_made.specs.Made.{generator, words_from, first_ends, taken, left, ended, text_of, node_line, node_lines, plug_line, pull_line, turn_line, made_script};
ghost use Rattle.script_made.specs.codings.Plugged.{ends_below, plugged, plugged_again};

use rand_core::utils::NextWord;
use rand_pcg::Pcg32;
use script_text::put_numbered;
use std::alloc::Global;
use topology_stack::OutOfMemory;

/// An end of a cable: a node and its port.
#[derive(Clone, Copy, Debug)]
struct End {
    node: u8,
    port: u8,
}

/// Appends the line that declares a node.
#[tactic(auto, unfolding(crate::specs::Made::node_line))]
fn put_node(out: &mut Vec<u8>, seed: u32, node: u8) -> Result<(), OutOfMemory>
    ensures { OnOk result (out.new.items ≡ out.old.items ++ ended (node_line seed node)) }
{
    let coins = seed.wrapping_add(u32::from(node));
    put_numbered(out, b"node n", u64::from(node))?;
    put_numbered(out, b" 3 contender 1 seed ", u64::from(coins))?;
    out.push(b'\n')?;
    Ok(())
}

/// Appends the lines that declare nodes.
fn put_nodes(out: &mut Vec<u8>, seed: u32, n: u8) -> Result<(), OutOfMemory>
    ensures { OnOk result (out.new.items ≡ out.old.items ++ text_of (node_lines seed n)) }
{
    for node in 0..n {
        put_node(out, seed, node)?;
    }
    Ok(())
}

/// Appends the line that plugs port 0 of a node at an end.
#[tactic(auto, unfolding(crate::specs::Made::plug_line))]
fn put_plug(out: &mut Vec<u8>, end: End, node: u8) -> Result<(), OutOfMemory>
    ensures { OnOk result (out.new.items ≡ out.old.items ++ ended (plug_line end node)) }
{
    put_numbered(out, b"plug n", u64::from(end.node))?;
    put_numbered(out, b" ", u64::from(end.port))?;
    put_numbered(out, b" n", u64::from(node))?;
    out.extend_from_slice(b" 0\n")?;
    Ok(())
}

/// Appends the line that pulls port 0 of a node.
#[tactic(auto, unfolding(crate::specs::Made::pull_line))]
fn put_pull(out: &mut Vec<u8>, node: u8) -> Result<(), OutOfMemory>
    ensures { OnOk result (out.new.items ≡ out.old.items ++ ended (pull_line node)) }
{
    put_numbered(out, b"pull n", u64::from(node))?;
    out.extend_from_slice(b" 0\n")?;
    Ok(())
}

/// Appends the line that lets 1 to 300 turns pass, as many as a word says.
#[tactic(auto, unfolding(crate::specs::Made::turn_line))]
fn put_turn(out: &mut Vec<u8>, word: u32) -> Result<(), OutOfMemory>
    ensures { OnOk result (out.new.items ≡ out.old.items ++ ended (turn_line word)) }
{
    put_numbered(out, b"turn ", u64::from(word % 300 + 1))?;
    out.push(b'\n')?;
    Ok(())
}

/// The ends that are free at first: the ports of the first node.
fn first_ends(alloc: Global) -> Result<Vec<End>, OutOfMemory>
    ensures { IfOk result (λ free. free.items ≡ first_ends) }
{
    let ends = [
        End { node: 0, port: 0 },
        End { node: 0, port: 1 },
        End { node: 0, port: 2 },
    ];
    Ok(Vec::from_slice(alloc, &ends)?)
}

/// Takes the end that the next word says out of the free ones, and adds the other two of the node
/// that is plugged there.
#[tactic(auto, unfolding(crate::specs::Made::taken, crate::specs::Made::left))]
fn take_end(free: &mut Vec<End>, words: &mut Pcg32, node: u8) -> Result<End, OutOfMemory>
    requires { 0 < length free.old.items }
    ensures end { IfOk result (λ end. end ≡ taken free.old.items (pcg32 words.old).0) }
    ensures free { OnOk result (free.new.items
        ≡ left free.old.items (pcg32 words.old).0 node) }
    ensures words { words.new ≡ (pcg32 words.old).1 }
{
    let place = words.next_word() as usize % free.len();
    let end = free.remove(place);
    free.push(End { node, port: 1 })?;
    free.push(End { node, port: 2 })?;
    Ok(end)
}

/// The ends at which so many nodes are plugged, from the second node on, in order.
fn draw_ends(alloc: Global, words: &mut Pcg32, cables: u8) -> Result<Vec<End>, OutOfMemory>
    requires { cables ≤ 62 }
    ensures ends { IfOk result (λ ends. ends.items ≡ ends_below words.old cables) }
    ensures words { OnOk result (words.new ≡ words_from words.old cables) }
{
    let mut free = first_ends(alloc)?;
    let mut ends = Vec::new(alloc);
    for cable in 0..cables {
        let end = take_end(&mut free, words, cable + 1)?;
        ends.push(end)?;
    }
    Ok(ends)
}

/// Appends the lines that plug nodes at ends, from the second node on.
fn put_plugs(out: &mut Vec<u8>, ends: &[End]) -> Result<(), OutOfMemory>
    requires { length ends.now ≤ 62 }
    ensures { OnOk result (out.new.items
        ≡ out.old.items ++ text_of (plugged ends.now (length ends.now))) }
{
    let mut node = 0;
    for end in ends {
        node += 1;
        put_plug(out, *end, node)?;
    }
    Ok(())
}

/// Appends the lines that pull each node from its end and plug it there again.
fn put_plugs_again(out: &mut Vec<u8>, ends: &[End], mut words: Pcg32) -> Result<(), OutOfMemory>
    requires { length ends.now ≤ 62 }
    ensures { OnOk result (out.new.items
        ≡ out.old.items ++ text_of (plugged_again ends.now words (length ends.now))) }
{
    let mut node = 0;
    for end in ends {
        node += 1;
        put_pull(out, node)?;
        put_turn(out, words.next_word())?;
        put_plug(out, *end, node)?;
    }
    Ok(())
}

/// The script that is made for `n` nodes, 1 to 63, and a seed.
///
/// It declares the nodes `n0`, `n1` and so on, contenders with 3 ports, whose coins have the seeds
/// `seed`, `seed + 1` and so on. Each later node is plugged by its port 0 at a free port of an
/// earlier one, as the words of PCG32 say, so the cables are a tree. When the bus has settled, each
/// cable is pulled, and plugged again 1 to 300 turns later.
pub fn make_script(alloc: Global, n: u8, seed: u32) -> Result<Vec<u8>, OutOfMemory>
    requires least { 1 ≤ n }
    requires most { n ≤ 63 }
    ensures text { IfOk result (λ text. text.items ≡ made_script n seed) }
    ensures size { IfOk result (λ text. length text.items ≤ 1048576) }
{
    let mut out = Vec::new(alloc);
    let mut words = Pcg32::new(u64::from(seed), 54);
    put_nodes(&mut out, seed, n)?;
    let ends = draw_ends(alloc, &mut words, n - 1)?;
    put_plugs(&mut out, ends.as_slice())?;
    out.extend_from_slice(b"settle\n")?;
    put_plugs_again(&mut out, ends.as_slice(), words)?;
    Ok(out)
}
