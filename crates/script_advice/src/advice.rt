//! Which cables to pull where the cables of a settled bus form loops.
ghost use Rattle.std.specs.Prelude.{◌≡◌, ◌++◌, ◌<◌, ℕ, List, All, length, IfOk, OnOk};
ghost use Rattle.script_text.specs.ReportText.{AreNamed};
ghost use Rattle.script_advice.specs.Advice.{loops_of, if_loop, AreAdvices, spaced_end, pull_line, pull_lines, left_line, advice_line, loop_advice_text, advice_text};
ghost use Rattle.script_advice.specs.Advising.{IsNamedCable, IsNamedAdvice, IsPartOf};

use cabling::{Cable, Cabling, End, NodeSet, cables_are_two_ended, components_are_whole};
use loop_advice::{Advice, advise};
use script_text::{put_name, put_names, put_numbered};
use settle::{Outcome, Part};
use std::alloc::Global;
use topology_stack::{Name, OutOfMemory};

/// The advice for a looped component.
#[derive(Drop)]
pub struct LoopAdvice {
    /// The nodes of the component.
    pub nodes: NodeSet,
    /// Its cables.
    pub advice: Advice,
}

/// Appends the advice for a component, if it is reported as a loop.
fn push_advice(
    list: &mut Vec<LoopAdvice>,
    cabling: &Cabling,
    part: &Part,
) -> Result<(), OutOfMemory>
    requires { IsPartOf cabling.now part.now }
    ensures { (sets : List ℕ) → AreAdvices cabling.now sets list.old.items →
        OnOk result (AreAdvices cabling.now
        (sets ++ if_loop part.now.outcome part.now.nodes) list.new.items) }
{
    cables_are_two_ended(cabling);
    components_are_whole(cabling);
    let Outcome::Loop { .. } = part.outcome else {
        return Ok(());
    };
    let Some(node) = part.nodes.least() else {
        unreachable!();
    };
    let alloc = *list.allocator();
    let advice = advise(alloc, cabling, node)?;
    list.push(LoopAdvice {
        nodes: part.nodes,
        advice,
    })?;
    Ok(())
}

/// The advice for each component that is reported as a loop, in the order of the report.
pub fn advices(
    alloc: Global,
    cabling: &Cabling,
    parts: &[Part],
) -> Result<Vec<LoopAdvice>, OutOfMemory>
    requires { All (IsPartOf cabling.now) parts.now }
    ensures { IfOk result (λ list. AreAdvices cabling.now (loops_of parts.now) list.items) }
{
    let mut list = Vec::new(alloc);
    for part in parts {
        push_advice(&mut list, cabling, part)?;
    }
    Ok(list)
}

/// Appends an end, by the name of its node and the number of its port.
#[tactic(auto, unfolding(crate::specs::Advice::spaced_end))]
fn put_end(out: &mut Vec<u8>, names: &[Name], end: End) -> Result<(), OutOfMemory>
    requires { end.node < length names.now }
    ensures { OnOk result (out.new.items ≡ out.old.items ++ spaced_end names.now end) }
{
    put_name(out, names, end.node)?;
    put_numbered(out, b" ", u64::from(end.port))
}

/// Appends the line of a cable to be pulled.
#[tactic(auto, unfolding(crate::specs::Advice::pull_line))]
fn put_cable(out: &mut Vec<u8>, names: &[Name], cable: Cable) -> Result<(), OutOfMemory>
    requires { IsNamedCable names.now cable }
    ensures { OnOk result (out.new.items ≡ out.old.items ++ pull_line names.now cable) }
{
    out.extend_from_slice(b"pull")?;
    put_end(out, names, cable.a)?;
    put_end(out, names, cable.b)?;
    out.push(b'\n')?;
    Ok(())
}

/// Appends the lines of the cables to be pulled.
fn put_cables(out: &mut Vec<u8>, names: &[Name], cables: &[Cable]) -> Result<(), OutOfMemory>
    requires { All (IsNamedCable names.now) cables.now }
    ensures { OnOk result (out.new.items ≡ out.old.items ++ pull_lines names.now cables.now) }
{
    for cable in cables {
        put_cable(out, names, *cable)?;
    }
    Ok(())
}

/// Appends the line with the nodes of a looped component.
#[tactic(auto, unfolding(crate::specs::Advice::advice_line))]
fn put_advice_line(out: &mut Vec<u8>, names: &[Name], nodes: NodeSet) -> Result<(), OutOfMemory>
    requires { AreNamed names.now nodes }
    ensures { OnOk result (out.new.items ≡ out.old.items ++ advice_line names.now nodes) }
{
    out.extend_from_slice(b"advice")?;
    put_names(out, names, nodes)?;
    out.push(b'\n')?;
    Ok(())
}

/// Appends the line that says how many cables stay.
#[tactic(auto, unfolding(crate::specs::Advice::left_line))]
fn put_left(out: &mut Vec<u8>, kept: usize) -> Result<(), OutOfMemory>
    ensures { OnOk result (out.new.items ≡ out.old.items ++ left_line kept) }
{
    put_numbered(out, b"left ", kept as u64)?;
    out.push(b'\n')?;
    Ok(())
}

/// Appends the advice for a looped component.
fn put_advice(out: &mut Vec<u8>, names: &[Name], advice: &LoopAdvice) -> Result<(), OutOfMemory>
    requires { IsNamedAdvice names.now advice.now }
    ensures { OnOk result (out.new.items ≡ out.old.items ++ loop_advice_text names.now advice.now) }
{
    put_advice_line(out, names, advice.nodes)?;
    put_cables(out, names, advice.advice.pulls.as_slice())?;
    put_left(out, advice.advice.kept.as_slice().len())
}

/// The lines of an advice: those for each looped component, or that there is none.
pub fn advice_text(
    alloc: Global,
    names: &[Name],
    advices: &[LoopAdvice],
) -> Result<Vec<u8>, OutOfMemory>
    requires { All (IsNamedAdvice names.now) advices.now }
    ensures { IfOk result (λ text. text.items ≡ advice_text names.now advices.now) }
{
    let mut out = Vec::new(alloc);
    if advices.is_empty() {
        out.extend_from_slice(b"advice none\n")?;
    }
    for advice in advices {
        put_advice(&mut out, names, advice)?;
    }
    Ok(out)
}
