//! The guess which node is which. Nothing is promised of it.

use crate::links::{Likeness, Links, NOBODY, PORTS, points};
use crate::pair::Pair;

/// The most nodes of a bus.
const MOST: u8 = 63;

/// A guess: by the ID in one bus the ID in the other, or `NOBODY`.
#[derive(Clone, Copy)]
pub(crate) struct Guess {
    new_of: [u8; 64],
    old_of: [u8; 64],
}

/// The entry of this ID.
fn entry(table: &[u8; 64], id: u8) -> u8 {
    if id < MOST {
        table[id as usize]
    } else {
        NOBODY
    }
}

impl Guess {
    /// That no node is in both buses.
    fn none() -> Guess {
        Guess {
            new_of: [NOBODY; 64],
            old_of: [NOBODY; 64],
        }
    }

    /// The ID in the new bus of the node with this ID in the old one, or `NOBODY`.
    pub(crate) fn new_of(&self, old: u8) -> u8 {
        entry(&self.new_of, old)
    }

    /// Whether neither of two nodes is in the other bus so far.
    fn is_free(&self, pair: Pair) -> bool {
        entry(&self.new_of, pair.old) == NOBODY && entry(&self.old_of, pair.new) == NOBODY
    }

    /// Takes two nodes for one.
    fn put(&mut self, pair: Pair) {
        if pair.old < MOST && pair.new < MOST {
            self.new_of[pair.old as usize] = pair.new;
            self.old_of[pair.new as usize] = pair.old;
        }
    }
}

/// A guess, and how good it is.
#[derive(Clone, Copy)]
struct Grown {
    guess: Guess,
    points: u32,
}

/// Takes the nodes at ports of the same number of two nodes for one, and so on from these. All of them have to be
/// so like each other.
fn grow_from(old: &Links, new: &Links, likeness: Likeness, from: Guess, start: Pair) -> Grown {
    let mut guess = from;
    let mut total = points(old, new, likeness, start.old, start.new).unwrap_or(0);
    guess.put(start);
    let mut queue = [start; 64];
    let mut count = 1;
    for at in 0..64 {
        if at >= count {
            break;
        }
        let pair = queue[at];
        for port in 0..PORTS {
            let next = Pair {
                old: old.far(pair.old, port),
                new: new.far(pair.new, port),
            };
            let found = points(old, new, likeness, next.old, next.new);
            if let (Some(more), true, true) = (found, guess.is_free(next), count < 64) {
                guess.put(next);
                queue[count] = next;
                count += 1;
                total = total.saturating_add(more);
            }
        }
    }
    Grown {
        guess,
        points: total,
    }
}

/// Whether a port of one and a port of the other lead to a node that is in both buses.
fn are_beside(old: &Links, new: &Links, guess: &Guess, pair: Pair) -> bool {
    for port in 0..PORTS {
        let far = guess.new_of(old.far(pair.old, port));
        if far != NOBODY && (0..PORTS).any(|other| new.far(pair.new, other) == far) {
            return true;
        }
    }
    false
}

/// Which nodes may be taken for one.
#[derive(Clone, Copy)]
struct Wanted {
    likeness: Likeness,
    /// They have to hang beside a node that is in both buses.
    beside: bool,
}

/// The best guess that goes on from one by taking the node of the old bus with this ID for one of the new bus.
fn best_with(old: &Links, new: &Links, wanted: Wanted, from: Guess, id: u8) -> Grown {
    let mut best = Grown {
        guess: from,
        points: 0,
    };
    for other in 0..MOST {
        let pair = Pair {
            old: id,
            new: other,
        };
        let fits = points(old, new, wanted.likeness, id, other).is_some();
        if fits && from.is_free(pair) && (!wanted.beside || are_beside(old, new, &from, pair)) {
            let more = grow_from(old, new, wanted.likeness, from, pair);
            if more.points > best.points {
                best = more;
            }
        }
    }
    best
}

/// The guess that goes furthest from one pair of nodes.
fn anchored(old: &Links, new: &Links, likeness: Likeness) -> Grown {
    let wanted = Wanted {
        likeness,
        beside: false,
    };
    let mut best = Grown {
        guess: Guess::none(),
        points: 0,
    };
    for id in 0..MOST {
        let more = best_with(old, new, wanted, Guess::none(), id);
        if more.points > best.points {
            best = more;
        }
    }
    best
}

/// Goes on with each node of the old bus that is left.
fn with_left(old: &Links, new: &Links, wanted: Wanted, from: Guess) -> Guess {
    let mut guess = from;
    for id in 0..MOST {
        guess = best_with(old, new, wanted, guess, id).guess;
    }
    guess
}

/// Goes on to nodes in the same places that only fit each other.
fn with_fitting(old: &Links, new: &Links, from: Guess) -> Guess {
    let mut guess = from;
    for id in 0..MOST {
        let other = guess.new_of(id);
        if other != NOBODY {
            let pair = Pair {
                old: id,
                new: other,
            };
            guess = grow_from(old, new, Likeness::Fit, guess, pair).guess;
        }
    }
    guess
}

/// Which node is which: first as far as the same ports lead to nodes that are alike, then nodes that are plugged
/// elsewhere on the same node, then nodes in the same places, and last nodes that are alike anywhere.
pub(crate) fn guessed(old: &Links, new: &Links) -> Guess {
    let anchor = anchored(old, new, Likeness::Alike);
    if anchor.points == 0 {
        return anchored(old, new, Likeness::Fit).guess;
    }
    let beside = Wanted {
        likeness: Likeness::Alike,
        beside: true,
    };
    let anywhere = Wanted {
        likeness: Likeness::Alike,
        beside: false,
    };
    let guess = with_left(old, new, beside, anchor.guess);
    let guess = with_fitting(old, new, guess);
    with_left(old, new, anywhere, guess)
}
