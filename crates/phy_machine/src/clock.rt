//! The clock of a machine: in which turns it ticks.
ghost use Rattle.std.specs.Prelude.{◌≡◌, ◌+◌, ◌/◌, ◌%◌, ◌<◌, ◌≤◌, true, false, not};
ghost use Rattle.port_state.specs.Clock.{TicksFor, clock_after, clock_on, even, every, is_even};
ghost use Rattle.port_state.specs.Clock.{misses, ticks_in};
ghost use Rattle.phy_machine.specs.Clock.{clock_in};

/// As long as a machine looks ahead, in turns.
const LOOK_AHEAD: u32 = 4_000_000;

/// A clock that ticks `gap` times between two turns that it misses, and `left` times before the next;
/// or misses no turn, where `gap` is 0.
#[derive(Clone, Copy, Debug)]
pub struct TickClock {
    gap: u32,
    left: u32,
}

/// How many whole cycles of `gap` ticks and a turn that is missed there are in so many turns.
fn cycles(turns: u32, gap: u32) -> u32
    ensures { result ≡ turns / (gap + 1) }
{
    (u64::from(turns) / (u64::from(gap) + 1)) as u32
}

/// How many turns are left over.
fn in_cycle(turns: u32, gap: u32) -> u32
    ensures { result ≡ turns % (gap + 1) }
{
    (u64::from(turns) % (u64::from(gap) + 1)) as u32
}

impl TickClock {
    /// A clock that misses no turn.
    pub fn even() -> TickClock
        ensures { clock_in result ≡ even }
    {
        TickClock { gap: 0, left: 0 }
    }

    /// A clock that misses one of every `gap` + 1 turns, at least 1, the first of them after `first`
    /// turns.
    pub fn slow(gap: u32, first: u32) -> TickClock
        requires { 1 ≤ gap }
        ensures { clock_in result ≡ every gap first }
    {
        TickClock { gap, left: first }
    }

    /// Whether it misses no turn.
    pub fn is_even(self) -> bool
        ensures { result ≡ is_even (clock_in self) }
    {
        self.gap == 0
    }

    /// A turn passes. Answers whether it ticks in it.
    pub fn turn(&mut self) -> bool
        ensures clock { clock_in self.new ≡ clock_after (clock_in self.old) }
        ensures ticks { result ≡ not (misses (clock_in self.old)) }
    {
        if self.gap == 0 {
            return true;
        }
        let ticks = self.left > 0;
        self.left = if ticks { self.left - 1 } else { self.gap };
        ticks
    }

    /// In how many of the next `turns` turns it ticks.
    pub fn ticks_in(self, turns: u32) -> u32
        ensures { result ≡ ticks_in turns (clock_in self) }
    {
        if self.gap == 0 {
            return turns;
        }
        if turns <= self.left {
            return turns;
        }
        let past = turns - self.left - 1;
        turns - 1 - cycles(past, self.gap)
    }

    /// The clock `turns` turns later.
    pub fn after(self, turns: u32) -> TickClock
        ensures clock { clock_in result ≡ clock_on turns (clock_in self) }
        ensures gap { result.gap ≡ self.gap }
    {
        if self.gap == 0 {
            return self;
        }
        if turns <= self.left {
            return TickClock {
                gap: self.gap,
                left: self.left - turns,
            };
        }
        let past = turns - self.left - 1;
        TickClock {
            gap: self.gap,
            left: self.gap - in_cycle(past, self.gap),
        }
    }

    /// So many turns pass. Answers in how many of them it ticks.
    pub fn go_on(&mut self, turns: u32) -> u32
        ensures clock { clock_in self.new ≡ clock_on turns (clock_in self.old) }
        ensures ticks { result ≡ ticks_in turns (clock_in self.old) }
    {
        if self.gap == 0 {
            return turns;
        }
        self.go_on_slowly(turns)
    }

    /// The same of a clock that misses turns.
    #[inline(never)]
    fn go_on_slowly(&mut self, turns: u32) -> u32
        ensures clock { clock_in self.new ≡ clock_on turns (clock_in self.old) }
        ensures ticks { result ≡ ticks_in turns (clock_in self.old) }
    {
        let ticks = self.ticks_in(turns);
        *self = self.after(turns);
        ticks
    }

    /// For how many turns behind the next `past` ones it misses none, up to 4,000,000.
    pub fn ticks_on(self, past: u32) -> u32
        ensures most { result ≤ 4000000 }
        ensures ticks { TicksFor result (clock_on past (clock_in self)) }
        ensures greatest { result < 4000000 →
            misses (clock_on (past + result) (clock_in self)) ≡ true }
    {
        if self.gap == 0 {
            return LOOK_AHEAD;
        }
        self.after(past).left.min(LOOK_AHEAD)
    }

    /// How many turns there are before its tick behind `ticks` others, up to 4,000,000.
    pub fn turns_before(self, ticks: u32) -> u32
        requires { ticks ≤ 4000000 }
        ensures most { result ≤ 4000000 }
        ensures ticks { ticks_in result (clock_in self) ≤ ticks }
        ensures before { result < 4000000 → (ticks_in result (clock_in self) ≡ ticks)
            × (misses (clock_on result (clock_in self)) ≡ false) }
    {
        if self.gap == 0 {
            return ticks;
        }
        self.turns_before_slowly(ticks)
    }

    /// The same of a clock that misses turns.
    #[inline(never)]
    fn turns_before_slowly(self, ticks: u32) -> u32
        requires slow { 1 ≤ self.gap }
        requires few { ticks ≤ 4000000 }
        ensures most { result ≤ 4000000 }
        ensures ticks { ticks_in result (clock_in self) ≤ ticks }
        ensures before { result < 4000000 → (ticks_in result (clock_in self) ≡ ticks)
            × (misses (clock_on result (clock_in self)) ≡ false) }
    {
        if ticks < self.left {
            return ticks;
        }
        let more = ticks - self.left;
        (ticks + (1 + more / self.gap)).min(LOOK_AHEAD)
    }
}
