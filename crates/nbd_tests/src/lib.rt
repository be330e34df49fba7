//! Tests of the server's side of the Network Block Device protocol, over disks in memory. Values come from the protocol's document.
#![tactic(auto)]

#[cfg(test)]
mod asking;
#[cfg(test)]
mod disk;
#[cfg(test)]
mod sessions;
mod told;
#[cfg(test)]
mod waiting;
#[cfg(test)]
mod wire;

pub use told::ToldDisk;
