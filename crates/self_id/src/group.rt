//! The group of a node, read and written.
ghost use Rattle.std.specs.Prelude.{◌≡◌, ◌+◌, ◌<◌, ◌≤◌, [], ◌∷◌, ◌++◌, length, drop, true, Ok, Err, MatchResult, IfOk, IfErr, IsErr, IsOkAnd, IsErrOf};
ghost use Rattle.phy_packet.specs.Layout.{spelled};
ghost use Rattle.self_id.specs.Node.{Node, node_with, HasForm};
ghost use Rattle.self_id.specs.Group.{StandsAt, BeginsWith};
ghost use Rattle.self_id.specs.Refused.{GroupRefused};
ghost use Rattle.self_id.specs.codings.Reading.{and_then, owned_at, zero_from, statuses, carried_a, carried_b, carried_c, node3, single, read_at, Gives};
ghost use Rattle.self_id.specs.declared.fault.GroupFault.{GroupFault};
ghost use Rattle.self_id.specs.declared.standard.Standard.TheVariants.{Ieee1995, Ieee2000};

use crate::fault::GroupFault;
use crate::node::{Attrs, PortList, SelfId};
use crate::packets::{
    FurtherPart, ZeroPart, further_part, further_quad, status, zero_part, zero_quad,
};
use crate::slots::count_up;
use crate::standard::Standard;

/// Appends the statuses of so many fields of two bits, at most eight, the last of them lowest.
#[inline]
fn push_fields(ports: &mut PortList, fields: u16, count: u32)
    requires few { count ≤ 8 }
    requires room { length ports.old + count ≤ 27 }
    ensures { ports.new ≡ ports.old ++ statuses count fields }
{
    for below in (0..count).rev() {
        ports.push(status(((fields >> (2 * below)) % 4) as u8));
    }
}

/// Writes the node of a whole group, unless it has two parents. The answer is the place after it.
#[inline]
fn whole(
    at: usize,
    after: usize,
    attrs: Attrs,
    ports: PortList,
    kept_a: u8,
    kept_b: u16,
    node: &mut SelfId,
) -> Result<usize, GroupFault>
    requires { HasForm (node_with attrs ports kept_a kept_b) }
    ensures whole { MatchResult result
        (λ x. (Ok node.new ≡ single at (node_with attrs ports kept_a kept_b)) × (x ≡ after))
        (λ f. Err f ≡ single at (node_with attrs ports kept_a kept_b)) }
    ensures kept { IsErr result → node.new ≡ node.old }
{
    if count_up(ports.as_slice()) > 1 {
        return Err(GroupFault::TwoParents { at });
    }
    *node = SelfId {
        attrs,
        ports,
        kept_a,
        kept_b,
    };
    Ok(after)
}

/// Writes the node of a group that is packet zero alone, unless it has two parents. The answer is the
/// place after it. Its slots are written where they are kept, since a copy of bytes that were only
/// just written takes a processor longer than all else here.
#[inline]
fn whole_of_three(
    at: usize,
    after: usize,
    zero: &ZeroPart,
    node: &mut SelfId,
) -> Result<usize, GroupFault>
    requires { HasForm (node3 zero.now) }
    ensures whole { MatchResult result
        (λ x. (Ok node.new ≡ single at (node3 zero.now)) × (x ≡ after))
        (λ f. Err f ≡ single at (node3 zero.now)) }
    ensures kept { IsErr result → node.new ≡ node.old }
{
    if count_up(&[zero.p0, zero.p1, zero.p2]) > 1 {
        return Err(GroupFault::TwoParents { at });
    }
    node.attrs = zero.attrs;
    node.ports.clear();
    node.ports.push(zero.p0);
    node.ports.push(zero.p1);
    node.ports.push(zero.p2);
    node.kept_a = 0;
    node.kept_b = 0;
    Ok(after)
}

/// The slots that packet zero shows.
#[inline]
fn first_ports(zero: &ZeroPart) -> PortList
    ensures { result ≡ zero.now.p0 ∷ zero.now.p1 ∷ zero.now.p2 ∷ [] }
{
    let mut ports = PortList::new();
    ports.push(zero.p0);
    ports.push(zero.p1);
    ports.push(zero.p2);
    ports
}

/// The carried bits of a packet with eight slots: its reserved bits and r.
#[inline]
fn carried_of_eight(part: &FurtherPart) -> u8
    requires { part.now.kept < 4 }
    ensures value { result ≡ spelled (carried_a part.now) }
    ensures small { result < 8 }
{
    let r = if part.r { 1 } else { 0 };
    part.kept * 2 + r
}

/// The carried bits of the second of two further packets of IEEE 1394a-2000: its reserved bits and
/// the eight after its port fields.
#[inline]
fn carried_of_five(second: &FurtherPart) -> u16
    requires { second.now.kept < 4 }
    ensures { result ≡ spelled (carried_b second.now) }
{
    let r = if second.r { 2 } else { 0 };
    let more = if second.more { 1 } else { 0 };
    u16::from(second.kept) * 256 + second.fields % 64 * 4 + r + more
}

/// The carried bits of packet n = 2: its reserved bits, r and m.
#[inline]
fn carried_of_last(third: &FurtherPart) -> u8
    requires { third.now.kept < 4 }
    ensures value { result ≡ spelled (carried_c third.now) }
    ensures small { result < 16 }
{
    let r = if third.r { 2 } else { 0 };
    let more = if third.more { 1 } else { 0 };
    third.kept * 4 + r + more
}

/// Writes the node of a standard's group of several packets at a place. The answer is the place
/// after it, or the first fault. Packet zero was read.
#[inline(never)]
fn take_further(
    standard: Standard,
    quads: &[u32],
    at: usize,
    wanted: u8,
    zero: &ZeroPart,
    node: &mut SelfId,
) -> Result<usize, GroupFault>
    requires inside { at < length quads.now }
    requires zero { Ok zero.now ≡ and_then (owned_at at wanted (drop at quads.now)) (zero_from at) }
    requires more { zero.now.more ≡ true }
    ensures read { MatchResult result (λ x. Gives standard at wanted (drop at quads.now) node.new x)
        (λ f. read_at standard at wanted (drop at quads.now) ≡ Err f) }
    ensures kept { IsErr result → node.new ≡ node.old }
{
    let mut ports = first_ports(zero);
    let first = further_part(further_quad(quads, at + 1, wanted, 0)?);
    push_fields(&mut ports, first.fields, 8);
    let kept_a = carried_of_eight(&first);
    if !first.more {
        return whole(at, at + 2, zero.attrs, ports, kept_a, 0, node);
    }
    let second = further_part(further_quad(quads, at + 2, wanted, 1)?);
    match standard {
        Standard::Ieee2000 => {
            push_fields(&mut ports, second.fields >> 6, 5);
            let kept_b = carried_of_five(&second);
            whole(at, at + 3, zero.attrs, ports, kept_a, kept_b, node)
        }
        Standard::Ieee1995 => {
            push_fields(&mut ports, second.fields, 8);
            let kept_b = u16::from(carried_of_eight(&second)) * 16;
            if !second.more {
                return whole(at, at + 3, zero.attrs, ports, kept_a, kept_b, node);
            }
            let third = further_part(further_quad(quads, at + 3, wanted, 2)?);
            push_fields(&mut ports, third.fields, 8);
            let kept_b = kept_b + u16::from(carried_of_last(&third));
            whole(at, at + 4, zero.attrs, ports, kept_a, kept_b, node)
        }
    }
}

/// Writes the node of a standard's group at a place. The answer is the place after it, or the first
/// fault.
#[inline(always)]
fn take_group(
    standard: Standard,
    quads: &[u32],
    at: usize,
    wanted: u8,
    node: &mut SelfId,
) -> Result<usize, GroupFault>
    requires inside { at < length quads.now }
    ensures read { MatchResult result (λ x. Gives standard at wanted (drop at quads.now) node.new x)
        (λ f. read_at standard at wanted (drop at quads.now) ≡ Err f) }
    ensures kept { IsErr result → node.new ≡ node.old }
{
    let zero = zero_part(zero_quad(quads, at, wanted)?);
    if zero.more {
        return take_further(standard, quads, at, wanted, &zero, node);
    }
    whole_of_three(at, at + 1, &zero, node)
}

/// Reads the group of the node with ID `wanted` that stands at a place of a list, by a standard, into
/// the place of `node`.
///
/// `at` counts quadlets from 0 and lies inside the list; `wanted` is 0 to 62. The answer is the place
/// after the group. Else it is the first rule that is broken, as `read_group_of` names it, and `node`
/// is as it was. It takes no memory.
#[inline(always)]
pub fn read_group_into(
    standard: Standard,
    quads: &[u32],
    at: usize,
    wanted: u8,
    node: &mut SelfId,
) -> Result<usize, GroupFault>
    requires inside { at < length quads.now }
    requires id { wanted ≤ 62 }
    // The group of the node stands there, and the answered place follows it.
    ensures found { IfOk result (λ x. StandsAt standard quads.now at wanted node.new x) }
    // A node whose group stands there is read.
    ensures only { (n : Node) → BeginsWith standard (drop at quads.now) wanted n
        → IsOkAnd result (λ x. node.new ≡ n) }
    // A fault that is answered is the list's, and the list's fault is answered.
    ensures refused { IfErr result (λ f. GroupRefused standard at wanted (drop at quads.now) f) }
    ensures exact { (f : GroupFault) → GroupRefused standard at wanted (drop at quads.now) f
        → IsErrOf result f }
    ensures kept { IsErr result → node.new ≡ node.old }
{
    take_group(standard, quads, at, wanted, node)
}

/// Reads the group of the node with ID `wanted` that stands at a place of a list, by a standard.
///
/// `at` counts quadlets from 0 and lies inside the list; `wanted` is 0 to 62. The answer is the
/// node and the place after its group. Else it is the first rule that is broken: the packets are
/// taken in turn, and of each it is asked whether the list goes on to it, whether it is a self-ID
/// packet, whether it is this node's, and whether it is the next of the group; at the end, whether
/// the node has two parents. It takes no memory.
#[inline(always)]
pub fn read_group_of(
    standard: Standard,
    quads: &[u32],
    at: usize,
    wanted: u8,
) -> Result<(SelfId, usize), GroupFault>
    requires inside { at < length quads.now }
    requires id { wanted ≤ 62 }
    // The group of the answered node stands there, and the answered place follows it.
    ensures found { IfOk result (λ x. StandsAt standard quads.now at wanted x.0 x.1) }
    // A node whose group stands there is answered.
    ensures only { (n : Node) → BeginsWith standard (drop at quads.now) wanted n
        → IsOkAnd result (λ x. x.0 ≡ n) }
    // A fault that is answered is the list's, and the list's fault is answered.
    ensures refused { IfErr result (λ f. GroupRefused standard at wanted (drop at quads.now) f) }
    ensures exact { (f : GroupFault) → GroupRefused standard at wanted (drop at quads.now) f
        → IsErrOf result f }
{
    let mut node = SelfId::blank();
    let after = read_group_into(standard, quads, at, wanted, &mut node)?;
    Ok((node, after))
}

/// `read_group_of` by IEEE 1394a-2000, self-ID packets: up to three packets with 3, 11 or 16 slots.
pub fn read_group(quads: &[u32], at: usize, wanted: u8) -> Result<(SelfId, usize), GroupFault>
    requires inside { at < length quads.now }
    requires id { wanted ≤ 62 }
    ensures found { IfOk result (λ x. StandsAt Ieee2000 quads.now at wanted x.0 x.1) }
    ensures only { (n : Node) → BeginsWith Ieee2000 (drop at quads.now) wanted n
        → IsOkAnd result (λ x. x.0 ≡ n) }
    ensures refused { IfErr result (λ f. GroupRefused Ieee2000 at wanted (drop at quads.now) f) }
    ensures exact { (f : GroupFault) → GroupRefused Ieee2000 at wanted (drop at quads.now) f
        → IsErrOf result f }
{
    read_group_of(Standard::Ieee2000, quads, at, wanted)
}

/// `read_group_of` by IEEE Std 1394-1995, self-ID packets: up to four packets with 3, 11, 19 or 27
/// slots.
pub fn read_group95(quads: &[u32], at: usize, wanted: u8) -> Result<(SelfId, usize), GroupFault>
    requires inside { at < length quads.now }
    requires id { wanted ≤ 62 }
    ensures found { IfOk result (λ x. StandsAt Ieee1995 quads.now at wanted x.0 x.1) }
    ensures only { (n : Node) → BeginsWith Ieee1995 (drop at quads.now) wanted n
        → IsOkAnd result (λ x. x.0 ≡ n) }
    ensures refused { IfErr result (λ f. GroupRefused Ieee1995 at wanted (drop at quads.now) f) }
    ensures exact { (f : GroupFault) → GroupRefused Ieee1995 at wanted (drop at quads.now) f
        → IsErrOf result f }
{
    read_group_of(Standard::Ieee1995, quads, at, wanted)
}
