//! Tests of `check` and `repair` over files in memory: what they print of damaged files, what a repair leaves, failing calls and crashes.
#![tactic(auto)]

#[cfg(test)]
mod common;
#[cfg(test)]
mod failing;
#[cfg(test)]
mod files;
#[cfg(test)]
mod findings;
#[cfg(test)]
mod repairs;
