//! What a node knows of its ports.
ghost use Rattle.std.specs.Prelude.{◌≡◌, ◌<◌, ◌≤◌, ◌↔◌, ℕ, true, [], ◌∷◌, ◌++◌, length, map, count_by, slice_get, slice_set, IsTrue, if◌then◌else◌};
ghost use Rattle.std.specs.Option.{ForSome};
ghost use Rattle.port_state.specs.Entry.{without_marks};
ghost use Rattle.port_state.specs.PortSet.{has_port};
ghost use Rattle.port_state.specs.Ports.{is_idle, asks, is_remaining, is_unnamed, is_connected, connected_count, every, lowest, change_port};
ghost use Rattle.port_state.specs.Resetting.{is_calm};
ghost use Rattle.port_state.specs.TreeIdentify.{adopt};

use crate::port_set::PortSet;
use crate::port_words::{Words, lowest_bit};
use crate::signal::Level;
use std::marker::Model;

/// What a node knows of one of its ports.
#[derive(Clone, Copy, Debug, Default, PartialEq, Eq)]
pub struct PortView {
    /// A cable is connected.
    pub connected: bool,
    /// The level that the port last heard.
    pub shown: Level,
    /// The port leads to a child.
    pub child: bool,
    /// The child was granted its turn to identify itself.
    pub asked: bool,
    /// The child said that it has identified itself, and all below it have.
    pub named: bool,
}

/// The views of a node's ports, port 0 first, at most 16. They are kept in a few words too, so that
/// what a step asks of all ports takes a few instructions.
#[derive(Clone, Copy, Debug)]
pub struct PortViews {
    count: u8,
    words: Words,
    // What the words say of each port, 0 to 15, there or not.
    views: [PortView; 16],
}

impl Model for PortViews {
    ghost use Rattle.std.specs.Prelude.{List, ◌≡◌, ◌≤◌};
    ghost use Rattle.port_state.specs.declared.ports.PortView.{PortView};

    ghost Value = { List PortView };

    ghost use Rattle.port_state.specs.codings.PortWords.{ports_of, all_ports, FitsPorts};
    ghost use Rattle.port_state.specs.codings.WordsBack.{inside_of, inside-back};

    ghost view = { λ p. ports_of p.count p.words };

    ghost invariant = { λ p. (p.count ≤ 16) × FitsPorts p.count p.words
        × (p.views ≡ all_ports p.words) };

    ghost inverse = { inside_of };

    ghost inverse_ok = { λ p h. inside-back p h.1 h.2 };
}

/// Clears the marks of each of these ports.
#[inline(never)]
fn unmark_all(views: &mut [PortView])
    ensures { views.new ≡ map without_marks views.old }
{
    for at in 0..views.len() {
        views[at].child = false;
        views[at].asked = false;
        views[at].named = false;
    }
}

/// Makes each of these ports whose neighbour asks lead to a child.
#[inline(never)]
fn adopt_each(views: &mut [PortView])
    ensures { views.new ≡ map adopt views.old }
{
    for at in 0..views.len() {
        if views[at].connected && views[at].shown == Level::Parent {
            views[at].child = true;
        }
    }
}

impl PortViews {
    /// The empty list.
    pub fn new() -> PortViews
        ensures { result ≡ [] }
    {
        PortViews {
            count: 0,
            words: Words::new(),
            views: [PortView {
                connected: false,
                shown: Level::Reset,
                child: false,
                asked: false,
                named: false,
            }; 16],
        }
    }

    /// Appends the view of the next port.
    pub fn push(&mut self, port: PortView)
        requires { length self.old < 16 }
        ensures { self.new ≡ self.old ++ port ∷ [] }
    {
        self.words.set(self.count, port);
        self.views[usize::from(self.count)] = port;
        self.count += 1;
    }

    /// The views, port 0 first.
    pub fn as_slice(&self) -> &[PortView]
        ensures { result.now ≡ self.now }
    {
        &self.views[..usize::from(self.count)]
    }

    /// The number of ports.
    pub fn len(&self) -> usize
        ensures value { result ≡ length self.now }
        ensures few { result ≤ 16 }
    {
        usize::from(self.count)
    }

    /// Whether there are no ports.
    pub fn is_empty(&self) -> bool
        ensures { IsTrue result ↔ (self.now ≡ []) }
    {
        self.count == 0
    }

    /// The ports that are connected. There are 16 ports at most.
    pub fn connected(&self) -> PortSet
        ensures ports { (k : ℕ) → has_port result k ≡ is_connected self.now k }
        ensures few { length self.now ≤ 16 }
    {
        PortSet::of_bits(self.words.connected)
    }

    /// The view of port `at`, which is below the number of ports.
    pub fn get(&self, at: usize) -> PortView
        requires { at < length self.now }
        ensures { slice_get self.now at ≡ Some result }
    {
        self.words.port(at as u8)
    }

    /// Puts a view in the place of that of port `at`, which is below the number of ports.
    pub fn set(&mut self, at: usize, port: PortView)
        requires { at < length self.old }
        ensures { self.new ≡ slice_set self.old at port }
    {
        self.words.set(at as u8, port);
        self.views[at] = port;
    }

    /// A port, which exists, shows a level.
    pub fn show(&mut self, port: u8, level: Level)
        requires { port < length self.old }
        ensures { self.new ≡ change_port port (λ p. record p { shown = level }) self.old }
    {
        self.words.show(port, level);
        self.views[usize::from(port)].shown = level;
    }

    /// Each port keeps its cable and its level, and leads to no child.
    pub fn clear_marks(&mut self)
        ensures { self.new ≡ map without_marks self.old }
    {
        if self.words.has_marks() {
            self.words.clear_marks();
            unmark_all(&mut self.views);
        }
    }

    /// Each port whose neighbour asks leads to a child.
    pub fn adopt_all(&mut self)
        ensures { self.new ≡ map adopt self.old }
    {
        self.words.adopt_all();
        adopt_each(&mut self.views);
    }

    /// The child of a port, which exists, was asked.
    pub fn ask(&mut self, port: u8)
        requires { port < length self.old }
        ensures { self.new ≡ change_port port (λ p. record p { asked = true }) self.old }
    {
        self.words.ask(port);
        self.views[usize::from(port)].asked = true;
    }

    /// The child of a port, which exists, has identified itself.
    pub fn name(&mut self, port: u8)
        requires { port < length self.old }
        ensures { self.new ≡ change_port port (λ p. record p { named = true }) self.old }
    {
        self.words.name(port);
        self.views[usize::from(port)].named = true;
    }

    /// Whether every connected port shows Idle or Parent: no neighbour resets any more.
    pub fn are_calm(&self) -> bool
        ensures { result ≡ every (λ p. is_calm p.shown) self.now }
    {
        self.words.restless_ports() == 0
    }

    /// How many ports are connected.
    pub fn connected_count(&self) -> u32
        ensures value { result ≡ connected_count self.now }
        ensures few { result ≤ 16 }
    {
        self.words.connected.count_ones()
    }

    /// How many connected ports show Parent: so many neighbours ask this node to be their parent.
    pub fn asking_count(&self) -> u32
        ensures value { result ≡ count_by asks self.now }
        ensures few { result ≤ 16 }
    {
        self.words.asking_ports().count_ones()
    }

    /// The lowest port whose neighbour doesn't ask.
    pub fn remaining(&self) -> Option<u8>
        ensures value { result ≡ lowest is_remaining self.now }
        ensures exists { ForSome result (λ p. p < length self.now) }
    {
        lowest_bit(self.words.remaining_ports())
    }

    /// Whether every child shows Idle.
    pub fn are_children_idle(&self) -> bool
        ensures { result ≡ every (λ p. if p.child then is_idle p.shown else true) self.now }
    {
        self.words.waiting_children() == 0
    }

    /// The lowest port whose child hasn't identified itself.
    pub fn next_child(&self) -> Option<u8>
        ensures value { result ≡ lowest is_unnamed self.now }
        ensures exists { ForSome result (λ p. p < length self.now) }
    {
        lowest_bit(self.words.unnamed_ports())
    }
}
