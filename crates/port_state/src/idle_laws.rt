//! Laws of turns in which nothing happens.
ghost use Rattle.port_state.specs.Idle.{IdleTicksByRow, IdleTicksRaiseTimers, MissedTurnsAreIdle};

/// A turn that the clock misses is idle. A tick is idle exactly where its row changes nothing, and
/// idle ticks raise the timer, one each.
pub fn idle_ticks()
    ensures missed { MissedTurnsAreIdle }
    ensures rows { IdleTicksByRow }
    ensures timers { IdleTicksRaiseTimers }
{}
