//! A file in a session, as the layer that it is in a chain.
#![tactic(auto)]

mod absence;
mod file;
mod file_layer;
mod geometry;
mod identifying;
mod laws;
mod locating;
mod masked;
mod plain;
mod planning;
mod preparing;
mod read_layer;
mod reading;
mod steps;
mod updating;
mod writing;

pub use file::{Layer, LayerFault};
pub use file_layer::{FileLayer, file_layers_stand, own_files};
pub use laws::{
    commits_are_served, layers_are_added, layers_are_kept, layers_stand, pages_turn,
    places_are_taken, writes_are_served,
};
pub use locating::{Located, Whereabouts};
pub use read_layer::{ReadLayer, own_through, read_layers_stand};
