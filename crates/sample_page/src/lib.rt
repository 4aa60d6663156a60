//! The pages of a sample.
#![tactic(auto)]

mod sample;

pub use sample::{SAMPLE_BASE, sample_names, sample_pages};
