//! What the commands of a script do to its bus.
ghost use Rattle.std.specs.Prelude.{◌≡◌, ◌≤◌, ◌<◌, ◌⊎◌, ◌++◌, [], true, Ok, IfOk, IfErr, IfSome, IsSome, OnOk};
ghost use Rattle.cable_world.specs.Act.{IsAct};
ghost use Rattle.script_told.specs.Step.{Acts, Does, after_maps, config_of};
ghost use Rattle.script_trace.specs.Trace.{act_trace};
ghost use Rattle.script_trace.specs.Voice.{legend_of};
ghost use Rattle.script_lines.specs.Range.{IsInRange};
ghost use Rattle.script_bus.specs.Running.{Stops};
ghost use Rattle.script_bus.specs.Heard.{Hears};
ghost use Rattle.script_bus.specs.Happening.{happens};
ghost use Rattle.script_bus.specs.codings.Standing.{IsQuestion};
ghost use Rattle.script_bus.specs.codings.Doing.{IsActOf};
ghost use Rattle.script_lines.specs.declared.command.Command.TheVariants as command;

use crate::bus::{Bus, buses_are_sound, end_of};
use cable_world::Act;
use resource_manager::Access;
use script_lines::{Command, Kind, LineStop};
use script_text::{maps_text, tree_of};
use script_trace::{Listener, touched_by};
use std::alloc::Global;
use topology_stack::Name;

/// The number of maps of a script, at most.
const MAX_MAPS: u32 = 100;

/// The configuration packet of a node, and the reset behind it.
fn config_of(from: u8, root_id: Option<u8>, gap: Option<u8>) -> Act
    ensures { result ≡ config_of from root_id gap }
{
    Act::Config {
        from,
        root_id: root_id.unwrap_or(0),
        force: root_id.is_some(),
        gap,
    }
}

/// Whether something happens to the world in a command, and nothing is printed: `plug`, `pull`,
/// `reset`, `config`, `hold` or `turn`.
pub fn happens(command: &Command) -> bool
    ensures { result ≡ happens command.now }
{
    matches!(
        command,
        Command::Plug { .. }
            | Command::Pull { .. }
            | Command::Reset { .. }
            | Command::Config { .. }
            | Command::Hold { .. }
            | Command::Turn { .. }
    )
}

impl Bus {
    /// `plug NAME PORT NAME PORT`
    fn plug(&self, a: &Name, a_port: u32, b: &Name, b_port: u32) -> Result<Act, LineStop>
        ensures is { IfOk result (λ act.
            IsActOf self.now (command.Plug a.now a_port b.now b_port) act) }
        ensures stop { IfErr result
            (Stops (Does self.now (command.Plug a.now a_port b.now b_port))) }
    {
        let a = self.node(a)?;
        let b = self.node(b)?;
        Ok(Act::Plug {
            a: end_of(a, a_port),
            b: end_of(b, b_port),
        })
    }

    /// `pull NAME PORT`
    fn pull(&self, name: &Name, port: u32) -> Result<Act, LineStop>
        ensures is { IfOk result (λ act. IsActOf self.now (command.Pull name.now port) act) }
        ensures stop { IfErr result (Stops (Does self.now (command.Pull name.now port))) }
    {
        let node = self.node(name)?;
        Ok(Act::Pull {
            end: end_of(node, port),
        })
    }

    /// `reset NAME`
    fn reset(&self, name: &Name) -> Result<Act, LineStop>
        ensures is { IfOk result (λ act. IsActOf self.now (command.Reset name.now) act) }
        ensures stop { IfErr result (Stops (Does self.now (command.Reset name.now))) }
    {
        let node = self.node(name)?;
        Ok(Act::Reset { node })
    }

    /// `config NAME ROOT GAP`
    fn config(&self, name: &Name, root_id: Option<u8>, gap: Option<u8>) -> Result<Act, LineStop>
        requires root { IfSome root_id (λ id. id ≤ 62) }
        requires gap { IfSome gap (λ g. g ≤ 63) }
        requires some { IsSome root_id ⊎ IsSome gap }
        ensures is { IfOk result (λ act.
            IsActOf self.now (command.Config name.now root_id gap) act) }
        ensures stop { IfErr result (Stops (Does self.now (command.Config name.now root_id gap))) }
    {
        let from = self.node(name)?;
        self.tree(from)?;
        Ok(config_of(from, root_id, gap))
    }

    /// An act, which a listener hears as this command.
    fn act_told<L: Listener>(
        self,
        alloc: Global,
        act: &Act,
        command: &Command,
        listener: &mut L,
    ) -> Result<Bus, LineStop>
        requires { IsAct act.now }
        ensures done { IfOk result (λ bus. Acts self act.now (Ok (bus, []))) }
        ensures heard { IfOk result (λ bus. L.written listener.new ≡ L.written listener.old
            ++ act_trace L.voice (legend_of bus.notes) command.now self.world bus.world) }
        ensures stop { IfErr result (Stops (Acts self act.now)) }
    {
        buses_are_sound(&self);
        let touched = touched_by(self.cabling(), act);
        let seen = self.tell_before(alloc, command, touched, listener)?;
        let bus = self.act(act)?;
        bus.tell_after(touched, &seen, listener)?;
        Ok(bus.tallied(touched, &*listener))
    }

    /// Does the act that a command says, which a listener hears.
    fn act_heard<L: Listener>(
        self,
        alloc: Global,
        command: &Command,
        act: Act,
        listener: &mut L,
    ) -> Result<Bus, LineStop>
        requires { IsActOf self command.now act }
        ensures done { IfOk result (λ bus. Does self command.now (Ok (bus, []))) }
        ensures heard { IfOk result (λ bus. Hears L.voice self command.now bus
            (L.written listener.old) (L.written listener.new)) }
        ensures stop { IfErr result (Stops (Does self command.now)) }
    {
        self.act_told(alloc, &act, command, listener)
    }

    /// `hold NAME PORT K`
    fn hold_wire(self, name: &Name, port: u32, turns: u16) -> Result<Bus, LineStop>
        ensures done { IfOk result (λ bus.
            Does self (command.Hold name.now port turns) (Ok (bus, []))) }
        ensures stop { IfErr result (Stops (Does self (command.Hold name.now port turns))) }
    {
        let node = self.node(name)?;
        self.hold(end_of(node, port), turns)
    }

    /// The maps of the tree in which a node stands settled.
    fn maps_shown(&self, alloc: Global, name: &Name) -> Result<Vec<u8>, LineStop>
        ensures done { IfOk result (λ text. Does self.now
            (command.Maps name.now) (Ok (after_maps self.now, text.items))) }
        ensures more { OnOk result (self.now.notes.maps < 100) }
        ensures stop { IfErr result (Stops
            (Does self.now (command.Maps name.now))) }
    {
        let node = self.node(name)?;
        let tree = self.tree(node)?;
        if self.notes.maps >= MAX_MAPS {
            return Err(LineStop::Fault(Kind::TooManyMaps));
        }
        let shown = tree_of(alloc, tree.list)?;
        let generation = self.resets(tree.root);
        Ok(maps_text(alloc, &shown, generation)?)
    }

    /// `maps NAME`
    fn maps(&mut self, alloc: Global, name: &Name) -> Result<Vec<u8>, LineStop>
        ensures done { IfOk result (λ text. Does self.old
            (command.Maps name.now) (Ok (self.new, text.items))) }
        ensures stop { IfErr result (Stops
            (Does self.old (command.Maps name.now))) }
    {
        let text = self.maps_shown(alloc, name)?;
        self.notes.maps += 1;
        Ok(text)
    }

    /// A command in which nothing happens to the world.
    fn ask(&mut self, alloc: Global, command: &Command) -> Result<Vec<u8>, LineStop>
        requires range { IsInRange self.old.notes.times.ranges command.now }
        requires asks { IsQuestion command.now }
        ensures done { IfOk result (λ text. Does self.old command.now
            (Ok (self.new, text.items))) }
        ensures stop { IfErr result (Stops (Does self.old command.now)) }
    {
        match command {
            Command::Maps { name } => self.maps(alloc, name),
            Command::CsrRead { name, offset } => {
                self.csr(alloc, name, Access::Read { offset: *offset })
            }
            Command::CsrWrite {
                name,
                offset,
                value,
            } => {
                let access = Access::Write {
                    offset: *offset,
                    value: *value,
                };
                self.csr(alloc, name, access)
            }
            Command::CsrLock {
                name,
                offset,
                kind,
                arg,
                value,
            } => {
                let access = Access::Lock {
                    offset: *offset,
                    kind: *kind,
                    arg: *arg,
                    value: *value,
                };
                self.csr(alloc, name, access)
            }
            Command::Look { name } => self.look(alloc, name),
            Command::Allocate {
                name,
                channel,
                units,
            } => self.allocate(alloc, name, *channel, *units),
            Command::Release {
                name,
                channel,
                units,
            } => self.release(alloc, name, *channel, *units),
            Command::Manager { name } => self.bid(alloc, name),
            _ => Err(LineStop::Fault(Kind::Late)),
        }
    }

    /// Does a command in which something happens to the world and nothing is printed, as `command` does
    /// it.
    pub fn happen<L: Listener>(
        self,
        alloc: Global,
        command: &Command,
        listener: &mut L,
    ) -> Result<Bus, LineStop>
        requires range { IsInRange self.notes.times.ranges command.now }
        requires happens { happens command.now ≡ true }
        ensures done { IfOk result (λ bus. Does self command.now (Ok (bus, []))) }
        ensures heard { IfOk result (λ bus. Hears L.voice self command.now bus
            (L.written listener.old) (L.written listener.new)) }
        ensures stop { IfErr result (Stops (Does self command.now)) }
    {
        match command {
            Command::Plug {
                a,
                a_port,
                b,
                b_port,
            } => {
                let act = self.plug(a, *a_port, b, *b_port)?;
                self.act_heard(alloc, command, act, listener)
            }
            Command::Pull { name, port } => {
                let act = self.pull(name, *port)?;
                self.act_heard(alloc, command, act, listener)
            }
            Command::Reset { name } => {
                let act = self.reset(name)?;
                self.act_heard(alloc, command, act, listener)
            }
            Command::Config { name, root_id, gap } => {
                let act = self.config(name, *root_id, *gap)?;
                self.act_heard(alloc, command, act, listener)
            }
            Command::Hold { name, port, turns } => {
                listener.command(self.turns(), command)?;
                Ok(self.hold_wire(name, *port, *turns)?)
            }
            Command::Turn { count } => self.turn(alloc, *count, listener),
            _ => unreachable!(),
        }
    }

    /// Does a command, whose numbers are in range where the times of nodes are in the bus's ranges, and
    /// answers the bus then and what it prints. The listener hears what happens in it. A command that
    /// is at fault leaves no bus to go on with; `node`, `delay` and `times` are `Late`.
    pub fn command<L: Listener>(
        self,
        alloc: Global,
        command: &Command,
        listener: &mut L,
    ) -> Result<(Bus, Vec<u8>), LineStop>
        requires { IsInRange self.notes.times.ranges command.now }
        ensures done { IfOk result (λ r. Does self command.now (Ok (r.0, r.1.items))) }
        ensures heard { IfOk result (λ r. Hears L.voice self command.now r.0
            (L.written listener.old) (L.written listener.new)) }
        ensures stop { IfErr result (Stops (Does self command.now)) }
    {
        match command {
            Command::Plug { .. }
            | Command::Pull { .. }
            | Command::Reset { .. }
            | Command::Config { .. }
            | Command::Hold { .. }
            | Command::Turn { .. } => {
                let bus = self.happen(alloc, command, listener)?;
                Ok((bus, Vec::new(alloc)))
            }
            Command::Settle => self.settle(alloc, listener),
            Command::Plan { name } => self.plan(alloc, name, listener),
            _ => {
                let mut bus = self;
                let text = bus.ask(alloc, command)?;
                Ok((bus, text))
            }
        }
    }
}
