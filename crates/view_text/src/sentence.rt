//! What was found and what was wanted where a capture is refused, in a sentence.
ghost use Rattle.std.specs.Prelude.{◌≡◌, ◌++◌, ◌≤◌, length, OnOk, ◌+◌};
ghost use Rattle.view_text.specs.Packet.{field};
ghost use Rattle.view_text.specs.Sentence.{first_at, second_at, top_bits, next_after, next_words, length_sentence, inverse_sentence, top_sentence, id_sentence, order_sentence, children_sentence, group_sentence, tree_sentence};

use capture_reading::ShortText;
use phy_packet::PhyPacket;
use self_id::{GroupFault, Standard};
use topology_stack::{OutOfMemory, TreeFault, put_hex};

/// The first quadlet of a pair, where it is whole, and else 0.
pub fn first_at(quads: &[u32], pair: usize) -> u32
    ensures { result ≡ first_at quads.now pair }
{
    if pair < quads.len() / 2 {
        quads[2 * pair]
    } else {
        0
    }
}

/// The second quadlet of a pair, where it is whole, and else 0.
pub fn second_at(quads: &[u32], pair: usize) -> u32
    ensures { result ≡ second_at quads.now pair }
{
    if pair < quads.len() / 2 {
        quads[2 * pair + 1]
    } else {
        0
    }
}

/// The top two bits of a quadlet in words.
fn top_bits(top: u32) -> &'static [u8]
    ensures word { result.now ≡ top_bits top }
    ensures few { length result.now ≤ 2 }
{
    match top {
        0 => b"00",
        1 => b"01",
        2 => b"10",
        _ => b"11",
    }
}

/// Which packet of a node has to follow this one, by a standard.
fn next_after(standard: Standard, packet: &PhyPacket) -> &'static [u8]
    ensures words { result.now ≡ next_after standard packet.now }
    ensures few { length result.now ≤ 11 }
{
    match (standard, *packet) {
        (_, PhyPacket::SelfZero { more: true, .. }) => b"packet n 0",
        (
            _,
            PhyPacket::SelfMore {
                n: 0,
                more: true,
                ..
            },
        ) => b"packet n 1",
        (
            Standard::Ieee1995,
            PhyPacket::SelfMore {
                n: 1,
                more: true,
                ..
            },
        ) => b"packet n 2",
        _ => b"packet zero",
    }
}

/// Which packet of a node has to stand behind the one before, if there is one, by a standard.
fn next_words(standard: Standard, before: Option<PhyPacket>) -> &'static [u8]
    ensures words { result.now ≡ next_words standard before }
    ensures few { length result.now ≤ 11 }
{
    match before {
        Some(packet) => next_after(standard, &packet),
        None => b"packet zero",
    }
}

/// Appends the sentence on a capture whose bytes end within a pair, and then a line feed.
pub fn put_length_sentence(out: &mut Vec<u8>) -> Result<(), OutOfMemory>
    ensures { OnOk result (out.new.items ≡ out.old.items ++ length_sentence) }
{
    out.extend_from_slice(
        b"Found the end of the input inside this pair, wanted 8 bytes: a quadlet and its inverse.\n",
    )
}

/// Appends the sentence on a pair whose second quadlet isn't the bitwise inverse of the first: both
/// in eight hexadecimal digits, and then a line feed. It says what was found and what was wanted.
pub fn put_inverse_sentence(out: &mut Vec<u8>, first: u32, second: u32) -> Result<(), OutOfMemory>
    ensures { OnOk result (out.new.items ≡ out.old.items ++ inverse_sentence first second) }
{
    out.extend_from_slice(b"Found the second quadlet ")?;
    put_hex(out, 8, second)?;
    out.extend_from_slice(b", wanted ")?;
    put_hex(out, 8, !first)?;
    out.extend_from_slice(b", the bitwise inverse of the first.\n")?;
    Ok(())
}

/// A sentence of one text, which has at most 100 bytes.
fn plain(text: &[u8]) -> ShortText
    requires { length text.now ≤ 100 }
    ensures { result ≡ text.now }
{
    let mut sentence = ShortText::new();
    sentence.put(text);
    sentence
}

#[tactic(auto, unfolding(crate::specs::Sentence::top_sentence))]
fn top_sentence(first: u32) -> ShortText
    ensures { result ≡ top_sentence first }
{
    let mut sentence = ShortText::new();
    sentence.put(b"Found the top two bits ");
    sentence.put(top_bits(first >> 30));
    sentence.put(b", wanted 10, those of a self-ID packet.\n");
    sentence
}

/// Appends a word of at most 50 bytes and a number.
#[tactic(auto, unfolding(crate::specs::Packet::field))]
fn put_count(sentence: &mut ShortText, word: &[u8], n: u8)
    requires room { length sentence.old + length word.now + 20 ≤ 256 }
    ensures field { sentence.new ≡ sentence.old ++ field word.now n }
    ensures few { length sentence.new ≤ length sentence.old + length word.now + 20 }
{
    sentence.put(word);
    sentence.put_number(usize::from(n));
}

#[tactic(auto, unfolding(crate::specs::Sentence::id_sentence))]
fn id_sentence(found: u8, wanted: u8) -> ShortText
    ensures { result ≡ id_sentence found wanted }
{
    let mut sentence = ShortText::new();
    put_count(&mut sentence, b"Found a self-ID packet of node ", found);
    put_count(&mut sentence, b", wanted one of node ", wanted);
    sentence.put(b": IDs count up from 0, and a node's packets stand together.\n");
    sentence
}

/// `wanted` has at most 11 bytes.
#[tactic(auto, unfolding(crate::specs::Sentence::order_sentence))]
fn order_sentence(wanted: &[u8]) -> ShortText
    requires { length wanted.now ≤ 11 }
    ensures { result ≡ order_sentence wanted.now }
{
    let mut sentence = ShortText::new();
    sentence.put(b"Found another packet of the node, wanted its ");
    sentence.put(wanted);
    sentence.put(b".\n");
    sentence
}

/// `why` has at most 100 bytes.
#[tactic(auto, unfolding(crate::specs::Sentence::children_sentence))]
fn children_sentence(found: u8, wanted: u8, why: &[u8]) -> ShortText
    requires { length why.now ≤ 100 }
    ensures { result ≡ children_sentence found wanted why.now }
{
    let mut sentence = ShortText::new();
    put_count(
        &mut sentence,
        b"Found trees of nodes that wait for a parent: ",
        found,
    );
    put_count(&mut sentence, b", wanted ", wanted);
    sentence.put(why);
    sentence
}

/// The sentence of a group's fault.
fn group_sentence(
    standard: Standard,
    quad: u32,
    before: Option<PhyPacket>,
    fault: GroupFault,
) -> ShortText
    ensures { result ≡ group_sentence standard quad before fault }
{
    match fault {
        GroupFault::NotSelfId { .. } => top_sentence(quad),
        GroupFault::WrongId { found, wanted, .. } => id_sentence(found, wanted),
        GroupFault::BadOrder { .. } => order_sentence(next_words(standard, before)),
        GroupFault::Cut { .. } => plain(
            b"Found the end of the list, wanted a further packet: m is 1 in the one before.\n",
        ),
        GroupFault::TwoParents { .. } => plain(
            b"Found more than one port to a parent in this node's packets, wanted one at most.\n",
        ),
    }
}

/// Returns the sentence on a list's fault: what was found and what was wanted, and a line feed. By the
/// standard it says which packet has to follow. `quad` is the first quadlet of the packet at the
/// fault's place, and `before` the packet that stands before it, if there is one. It takes no memory.
pub fn tree_sentence(
    standard: Standard,
    quad: u32,
    before: Option<PhyPacket>,
    fault: TreeFault,
) -> ShortText
    ensures { result ≡ tree_sentence standard quad before fault }
{
    match fault {
        TreeFault::Group(fault) => group_sentence(standard, quad, before, fault),
        TreeFault::Empty => plain(b"Found no packet, wanted those of one node at least.\n"),
        TreeFault::TooFewChildren { found, wanted, .. } => children_sentence(
            found,
            wanted,
            b", as many as this node has ports to children.\n",
        ),
        TreeFault::TreesLeft { found, wanted, .. } => children_sentence(
            found,
            wanted,
            b": this node has no port to a parent, so it is the root, and those are its children.\n",
        ),
        TreeFault::AfterRoot { .. } => plain(
            b"Found a packet behind the root's, wanted none: the node without a parent comes last.\n",
        ),
        TreeFault::NoRoot { .. } => plain(
            b"Found the end of the list, wanted the root: each node has a port to a parent.\n",
        ),
        TreeFault::TooMany { .. } => {
            plain(b"Found a packet of a 64th node, wanted 63 nodes at most.\n")
        }
    }
}

/// Appends the sentence of `tree_sentence`.
pub fn put_tree_sentence(
    out: &mut Vec<u8>,
    standard: Standard,
    quad: u32,
    before: Option<PhyPacket>,
    fault: TreeFault,
) -> Result<(), OutOfMemory>
    ensures { OnOk result (out.new.items
        ≡ out.old.items ++ tree_sentence standard quad before fault) }
{
    out.extend_from_slice(tree_sentence(standard, quad, before, fault).as_bytes())
}
