//! Tests of the program with guests beside a merge, over files in memory and on real threads: what no clause says of `run`.
#![tactic(auto)]

#[cfg(test)]
mod absent;
#[cfg(test)]
mod common;
#[cfg(test)]
mod failing;
#[cfg(test)]
mod meeting;
#[cfg(test)]
mod merges;
#[cfg(test)]
mod ranges;
