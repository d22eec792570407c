//! Tests of single layers, each over worked values. Those that cross layers stand in `bus_tests`.
#![tactic(auto)]

#[cfg(test)]
mod advices;
#[cfg(test)]
mod cables;
#[cfg(test)]
mod dumps;
#[cfg(test)]
mod elections;
#[cfg(test)]
mod flaws;
#[cfg(test)]
mod images;
#[cfg(test)]
mod lanes;
#[cfg(test)]
mod lines;
#[cfg(test)]
mod logs;
#[cfg(test)]
mod machines;
#[cfg(test)]
mod nodes;
#[cfg(test)]
mod packets;
#[cfg(test)]
mod plans;
#[cfg(test)]
mod port_sets;
#[cfg(test)]
mod registers;
#[cfg(test)]
mod roms;
#[cfg(test)]
mod speeds;
#[cfg(test)]
mod streams;
#[cfg(test)]
mod times;
#[cfg(test)]
mod trees;
