//! The lines that declare nodes.
ghost use Rattle.std.specs.Prelude.{◌≡◌, ◌≤◌, [], ◌∷◌, None, codes, unwrap_or, ◌==◌, length, IfOk, true, if◌then◌else◌};
ghost use Rattle.std.specs.List.{list_all};
ghost use Rattle.std.specs.Str.{bytes_eq};
ghost use Rattle.script_lines.specs.Coins.{is_coin};
ghost use Rattle.script_lines.specs.Node.{first_wrong_pair, given, number_given, coins_given, node_of};
ghost use Rattle.script_lines.specs.Range.{IsInRange};
ghost use Rattle.script_lines.specs.codings.Reading.{read_node};

use crate::coins::coin_word;
use crate::command::Command;
use crate::key::Key;
use crate::kind::Kind;
use crate::pairs::{are_pairs, check_pairs, given, number, small, time};
use crate::word::Word;
use port_state::TimeRanges;
use topology_stack::Name;

/// Whether the number behind a key is 1, or the key has no number and this is so without it.
fn flag(pairs: &[Word], key: Key, times: TimeRanges, default: bool) -> bool
    requires right { first_wrong_pair times [] pairs.now ≡ None }
    ensures { result ≡ (unwrap_or (number_given key pairs.now) (if default then 1 else 0) == 1) }
{
    match number(pairs, key, times) {
        Some(n) => n == 1,
        None => default,
    }
}

/// The coins, or none, where the pairs are right.
fn coins<'a>(pairs: &[Word<'a>], times: TimeRanges) -> &'a [u8]
    requires right { first_wrong_pair times [] pairs.now ≡ None }
    ensures value { result.now ≡ coins_given pairs.now }
    ensures few { length result.now ≤ 64 }
    ensures coins { list_all is_coin result.now ≡ true }
{
    match given(pairs, Key::Coins) {
        Some(coins) => coins.as_bytes(),
        None => &[],
    }
}

/// Whether the kind is `packed`.
fn is_packed(pairs: &[Word]) -> bool
    ensures { result ≡ bytes_eq (unwrap_or (given Key.Kind pairs.now) (codes "field")) (codes "packed") }
{
    match given(pairs, Key::Kind) {
        Some(kind) => kind.is(b"packed"),
        None => false,
    }
}

/// The node that a name, a number of ports and right pairs declare.
fn node_of(name: Name, ports: u8, pairs: &[Word], times: TimeRanges) -> Command
    requires right { first_wrong_pair times [] pairs.now ≡ None }
    requires some_port { 1 ≤ ports }
    requires few_ports { ports ≤ 16 }
    ensures value { result ≡ node_of name ports pairs.now }
    ensures ranged { IsInRange times result }
{
    let coins = coins(pairs, times);
    Command::Node {
        name,
        ports,
        speed: small(pairs, Key::Speed, times, 2),
        link: flag(pairs, Key::Link, times, true),
        contender: flag(pairs, Key::Contender, times, false),
        force: flag(pairs, Key::Force, times, false),
        power: small(pairs, Key::Power, times, 0),
        gap: small(pairs, Key::Gap, times, 63),
        gap_reset: flag(pairs, Key::GapReset, times, false),
        hold: time(pairs, Key::Hold, times),
        short: time(pairs, Key::Short, times),
        long: time(pairs, Key::Long, times),
        coin_word: coin_word(coins),
        coin_len: coins.len() as u8,
        seed: number(pairs, Key::Seed, times),
        packed: is_packed(pairs),
    }
}

/// `node NAME PORTS` and pairs of key and value.
pub(crate) fn node(args: &[Word], times: TimeRanges) -> Result<Command, Kind>
    ensures value { result ≡ read_node times (codes "node" ∷ args.now) }
    ensures ranged { IfOk result (IsInRange times) }
{
    match args {
        [name, ports, pairs @ ..] if are_pairs(pairs) => {
            let name = name.name()?;
            let ports = ports.number(1, 16)? as u8;
            check_pairs(pairs, times)?;
            Ok(node_of(name, ports, pairs, times))
        }
        _ => Err(Kind::Word),
    }
}
