//! Laws of root contention: who draws coins, and who wins.
ghost use Rattle.convergence.specs.Drawers.{RivalsAreClose, RivalsAgree, DrawersShareACable};
ghost use Rattle.convergence.specs.Drawers.{NoThirdDraws, FewDraw, LongWaitsWin};
ghost use Rattle.convergence.specs.Kept.{IsKept};
ghost use Rattle.convergence.specs.Kept.{OnceContested, OnceOverAndContested};
ghost use Rattle.convergence.specs.Rivals.{IsContested};
ghost use Rattle.convergence.specs.Turns.{turns_to_over, HoldsAfter};

/// What nodes know of coins holds at power-on, and turns, holds and acts of a lawful world keep it.
pub fn worlds_stay_contested()
    ensures { IsKept IsContested }
{}

/// Contention. In any lawful world, while each of two nodes is the other's candidate parent, their
/// counts of draws differ by one at most, and draw number j is the same at both, for each j below
/// 32 with j + 1 below both counts. Once resets are over, two nodes of a component that drew coins
/// are the ends of one cable, with equal draws in that sense, and no third node drew. So all of it
/// is so after n d quiet turns, whatever holds are placed between them.
pub fn few_draw_coins()
    ensures close { OnceContested RivalsAreClose }
    ensures agree { OnceContested RivalsAgree }
    ensures two { OnceOverAndContested DrawersShareACable }
    ensures no_third { OnceOverAndContested NoThirdDraws }
    ensures after_turns { HoldsAfter turns_to_over FewDraw }
{}

/// Of two nodes of a component in T3 whose last coins differ the one with coin 1 has the other as
/// its child, and has no parent, L turns later and from then on, where no node waits for longer
/// than L: in quiet turns, after n d of them, whatever holds are placed between them.
pub fn long_waits_win()
    ensures { LongWaitsWin }
{}
