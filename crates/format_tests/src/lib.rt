//! Tests of the formats that a file is made of, with values from outside and what no clause says of them.
#![tactic(auto)]

#[cfg(test)]
mod asking;
#[cfg(test)]
mod heads;
#[cfg(test)]
mod locators;
#[cfg(test)]
mod logs;
#[cfg(test)]
mod merges;
#[cfg(test)]
mod metadata;
#[cfg(test)]
mod numbers;
#[cfg(test)]
mod places;
#[cfg(test)]
mod questions;
#[cfg(test)]
mod sessions;
#[cfg(test)]
mod stores;
#[cfg(test)]
mod tables;
#[cfg(test)]
mod updates;
