//! Tests of a load's numbers, calls and lines. Values come from `compare/loads.py`, a model in another language.
#![tactic(auto)]

#[cfg(test)]
mod asking;
#[cfg(test)]
mod calls;
#[cfg(test)]
mod sums;
