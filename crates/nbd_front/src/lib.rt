//! The server's side of the Network Block Device protocol, over a source, a sink and a disk.
#![tactic(auto)]

mod answering;
mod asking;
mod connection;
mod desk;
mod export;
mod fields;
mod haggling;
mod intake;
mod laws;
mod next;
mod refusal;
mod request;
mod sending;
mod served;
mod session;
mod taking;
mod tally;
mod writing;

pub use connection::{serve, serve_with};
pub use desk::{Desk, Room};
pub use export::Export;
pub use laws::{one_reading, pieces_cover};
pub use refusal::NbdRefusal;
pub use served::Served;
