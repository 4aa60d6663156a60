//! Tables from texts to values, in which no look-up takes long, whatever the texts are.
#![tactic(auto)]

mod class;
mod key;
mod map;
mod table;
mod tables;

pub use map::TextMap;
