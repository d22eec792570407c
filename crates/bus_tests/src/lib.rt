//! Tests that cross crates: the top call over sources and sinks in memory, and trees of many shapes.
#![tactic(auto)]

#[cfg(test)]
mod abreast;
#[cfg(test)]
mod agenda;
#[cfg(test)]
mod copies;
#[cfg(test)]
mod failing;
#[cfg(test)]
mod faults;
#[cfg(test)]
mod hops;
#[cfg(test)]
mod hostile;
#[cfg(test)]
mod inputs;
#[cfg(test)]
mod more_nodes;
#[cfg(test)]
mod nodes;
#[cfg(test)]
mod plans;
#[cfg(test)]
mod quiet;
#[cfg(test)]
mod rom;
#[cfg(test)]
mod scripts;
#[cfg(test)]
mod settled;
#[cfg(test)]
mod spent;
#[cfg(test)]
mod steps;
#[cfg(test)]
mod surface_layers;
#[cfg(test)]
mod surface_nodes;
#[cfg(test)]
mod surface_programs;
#[cfg(test)]
mod texts;
#[cfg(test)]
mod traces;
#[cfg(test)]
mod two_nodes;
