//! Tests of what guests and users write and read: calls, scripts, words, the stores below them, and what threads share. Values come from outside.
#![tactic(auto)]

#[cfg(test)]
mod asking;
#[cfg(test)]
mod claiming;
#[cfg(test)]
mod files;
#[cfg(test)]
mod history;
#[cfg(test)]
mod memory;
#[cfg(test)]
mod questions;
#[cfg(test)]
mod scripts;
#[cfg(test)]
mod transcripts;
#[cfg(test)]
mod turns;
#[cfg(test)]
mod words;
