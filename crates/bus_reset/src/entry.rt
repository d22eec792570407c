//! The entry to R0 (Reset start).
ghost use Rattle.std.specs.Prelude.{◌≡◌, []};
ghost use Rattle.port_state.specs.Entry.{enter};
ghost use Rattle.port_state.specs.Valid.{IsBounded};

use port_state::states::NodeState;
use port_state::{Outbox, Phase, Sends, Signal};

/// The node begins a reset, by itself (`caused`) or since it heard Reset: it forgets the tree,
/// takes over what a configuration packet said, and sends Reset on every connected port. `out` is
/// empty, and then has what was sent.
pub fn enter(s: &mut NodeState, caused: bool, out: &mut Sends)
    requires bounded { IsBounded s.old }
    requires empty { out.old ≡ [] }
    ensures state { s.new ≡ (enter caused s.old).state }
    ensures sends { out.new ≡ (enter caused s.old).sends }
{
    let mut outbox = Outbox::new();
    enter_into(s, caused, &mut outbox);
    out.fill(&outbox);
}

/// Does what `enter` does, and passes on what is sent.
#[tactic(auto, unfolding(port_state::specs::Entry::enter))]
pub fn enter_into(s: &mut NodeState, caused: bool, out: &mut Outbox)
    requires bounded { IsBounded s.old }
    requires empty { out.old ≡ [] }
    ensures state { s.new ≡ (enter caused s.old).state }
    ensures sends { out.new ≡ (enter caused s.old).sends }
{
    let view = &mut s.view;
    out.push_on_every(&view.ports, Signal::Reset);
    view.ports.clear_marks();
    view.phase = Phase::ResetStart;
    view.timer = 0;
    view.wait = 0;
    view.parent = None;
    view.granted = false;
    view.id = None;
    view.draws = 0;
    view.first_draws = 0;
    view.initiated = caused;
    view.gap = view.next_gap;
    view.force = view.next_force;
    if s.resets_gap {
        view.next_gap = 63;
    }
    view.timed_out = false;
    view.resets = view.resets.saturating_add(1);
    s.list.clear();
}
