//! Laws of the step table. Each function is a fact for the crates above, which call it.
ghost use Rattle.port_state.specs.Timing.{UsualTimesFit};
ghost use Rattle.port_state.specs.Coins.{CoinsRepeat};
ghost use Rattle.port_state.specs.Group.{NodesAreShown, GroupsHaveOneZero};
ghost use Rattle.port_state.specs.Sound.{TicksAreSound, SignalsAreSound, EntriesAreSound};
ghost use Rattle.port_state.specs.Sound.{DisturbsAreSound, PlugsAreSound, PullsAreSound};
ghost use Rattle.port_state.specs.Sound.{ConfigsKeepValid, PowerOnIsValid};
ghost use Rattle.port_state.specs.Stays.{TickLeavesTheRest, SignalLeavesTheRest, EntryLeavesTheRest};
ghost use Rattle.port_state.specs.Stays.{PlugLeavesTheRest, PullLeavesTheRest, ConfigLeavesTheRest};
ghost use Rattle.port_state.specs.ByPort.{TickKeepsCables, SignalKeepsCables, EntryKeepsCables};
ghost use Rattle.port_state.specs.ByPort.{PlugConnects, PullDisconnects};
ghost use Rattle.port_state.specs.ByPort.{EveryByPort, OthersByPort, NoticesByPort, PacketsByPort};
ghost use Rattle.port_state.specs.ByPort.{MapByPort, ChangeByPort};

/// Each step of a valid record, by whatever row and signal, gives a valid record of the same node.
/// It sends at most 112 signals, and none on a port that isn't connected. A reset may begin from
/// any bounded record.
pub fn steps_are_sound()
    ensures tick { TicksAreSound }
    ensures signal { SignalsAreSound }
    ensures enter { EntriesAreSound }
    ensures disturb { DisturbsAreSound }
    ensures plugged { PlugsAreSound }
    ensures pulled { PullsAreSound }
{}

/// A configuration packet whose numbers have 6 bits leaves a record valid.
pub fn config_is_valid()
    ensures { ConfigsKeepValid }
{}

/// A node of 1 to 16 ports, with attributes that fit their bits and no delay, is valid at power-on.
pub fn power_on_is_valid()
    ensures { PowerOnIsValid }
{}

/// What a row or a call doesn't name stays: with the parts forgotten that are named, the record
/// before and the record after are the same. So a tick by which no row applies changes the timer
/// alone, and a signal that isn't heard changes nothing.
pub fn what_stays()
    ensures tick { TickLeavesTheRest }
    ensures signal { SignalLeavesTheRest }
    ensures enter { EntryLeavesTheRest }
    ensures plugged { PlugLeavesTheRest }
    ensures pulled { PullLeavesTheRest }
    ensures config { ConfigLeavesTheRest }
{}

/// Which ports are connected after each step: plugging and pulling change that of their port, and
/// no step changes that of another.
pub fn cables_by_number()
    ensures tick { TickKeepsCables }
    ensures signal { SignalKeepsCables }
    ensures enter { EntryKeepsCables }
    ensures plugged { PlugConnects }
    ensures pulled { PullDisconnects }
{}

/// What goes out on one port, for each way in which a step sends. So a step can be told port by
/// port.
pub fn sends_by_port()
    ensures every { EveryByPort }
    ensures others { OthersByPort }
    ensures notices { NoticesByPort }
    ensures packets { PacketsByPort }
{}

/// What a step makes of one port, for each way in which it changes ports.
pub fn ports_by_number()
    ensures all { MapByPort }
    ensures one { ChangeByPort }
{}

/// What a bounded record shows of itself is a node that self-ID packets can show. Its packets with
/// an ID, 0 to 62, have one packet zero, so that the packet zeros of a list number its nodes.
pub fn shown_node_has_packets()
    ensures node { NodesAreShown }
    ensures one { GroupsHaveOneZero }
{}

/// The usual times lie in their ranges.
pub fn usual_in_range()
    ensures { UsualTimesFit }
{}

/// Coin number k of given bits, from 0, is bit k modulo their number.
pub fn coins_repeat()
    ensures { CoinsRepeat }
{}
