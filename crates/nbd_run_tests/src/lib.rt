//! Tests of the program with a client of the Network Block Device protocol, over files in memory and on real threads: what no clause says of `run`.
#![tactic(auto)]

#[cfg(test)]
mod broken;
#[cfg(test)]
mod common;
#[cfg(test)]
mod merges;
#[cfg(test)]
mod refused;
#[cfg(test)]
mod rows;
#[cfg(test)]
mod wire;
