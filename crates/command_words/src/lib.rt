//! The words of a command line, and the command that they give.
#![tactic(auto)]

mod base;
mod command;
mod names;
mod number;
mod session;
mod simple;

pub use command::{Command, command_of};
