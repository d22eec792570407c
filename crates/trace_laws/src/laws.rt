//! What stands in a trace.
ghost use Rattle.trace_laws.specs.Traces.{TracesAreOfEvents, LinesEndOnce};
ghost use Rattle.trace_laws.specs.Reading.{TracesAreReadWhole};

use cable_world::acts_keep;
use script_lines::names_are_tested;
use topology_stack::one_tree;

/// A law: the trace of a script is the lines of events from its first byte to its last, whose numbers have
/// 32 bits and whose names are such as nodes have. Each line ends at one place, whichever event it is read
/// as. So whoever calls [`event_at`](trace_event::event_at) at the first byte, and then always at the place
/// behind the event that it found, finds one in each line and comes to the end.
pub fn traces_are_of_events()
    ensures events { TracesAreOfEvents }
    ensures ends { LinesEndOnce }
    ensures reads { TracesAreReadWhole }
{
    one_tree();
    acts_keep();
    names_are_tested();
}
