//! Tests of the program with several guests, over files in memory and on real threads: what no clause says of `run`.
#![tactic(auto)]

#[cfg(test)]
mod common;
#[cfg(test)]
mod failing;
#[cfg(test)]
mod many;
#[cfg(test)]
mod rows;
#[cfg(test)]
mod sealed;
