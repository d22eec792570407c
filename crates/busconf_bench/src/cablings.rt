//! Cablings of 63 nodes with sixteen ports each, and the calls over them.

use cabling::{Cabling, End, OutOfMemory};
use loop_advice::{Advice, CableList, advise, check};
use std::alloc::{AllocError, Global};

/// How many nodes there are, and how many ports each has.
const NODES: u8 = 63;

const PORTS: u8 = 16;

/// How the nodes are joined.
#[derive(Clone, Copy)]
pub enum Shape {
    /// One after the other.
    Line,
    /// Each below the first node that has a port left.
    Star,
    /// Each to the next eight, all the way round.
    Looped,
}

/// A call over a cabling.
#[derive(Clone, Copy)]
pub enum Question {
    Component,
    Core,
    Walk,
    Advice,
    Check,
}

/// Plugs a cable, if its ends are free.
fn join(cabling: &mut Cabling, node: u8, port: u8, other: u8, other_port: u8) {
    let _ = cabling.plug(
        End { node, port },
        End {
            node: other,
            port: other_port,
        },
    );
}

/// The nodes joined in a shape.
pub fn joined(alloc: Global, shape: Shape) -> Result<Cabling, AllocError> {
    let ports = vec![in alloc; PORTS; 63]?;
    let mut cabling = Cabling::new(alloc, &ports)?;
    for node in 0..NODES {
        match shape {
            Shape::Line => join(&mut cabling, node, 1, node + 1, 0),
            Shape::Star => join(&mut cabling, node / 15, 1 + node % 15, node + 1, 0),
            Shape::Looped => {
                for step in 0..8u8 {
                    join(
                        &mut cabling,
                        node,
                        step,
                        (node + step + 1) % NODES,
                        8 + step,
                    );
                }
            }
        }
    }
    Ok(cabling)
}

/// The advice for the component of the first node, if there is one.
pub fn advice_for(alloc: Global, cabling: &Cabling) -> Result<Advice, OutOfMemory> {
    if cabling.nodes() == 0 {
        return Ok(Advice {
            pulls: CableList::new(alloc),
            kept: CableList::new(alloc),
        });
    }
    advise(alloc, cabling, 0)
}

/// The answer of a call, as a number that keeps the compiler from leaving the call out. What is
/// checked is this advice.
pub fn answer_to(alloc: Global, cabling: &Cabling, advice: &Advice, question: Question) -> u64 {
    if cabling.nodes() == 0 {
        return 0;
    }
    match question {
        Question::Component => u64::from(cabling.component(0).len()),
        Question::Core => u64::from(cabling.core(cabling.component(0)).len()),
        Question::Walk => match cabling.walk_from(0) {
            Ok(walk) => walk.as_slice().len() as u64,
            Err(cyclic) => u64::from(cyclic.core.len()),
        },
        Question::Advice => match advise(alloc, cabling, 0) {
            Ok(advice) => advice.pulls.as_slice().len() as u64,
            Err(_) => 0,
        },
        Question::Check => u64::from(check(cabling, 0, advice)),
    }
}
