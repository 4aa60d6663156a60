//! What a content holds, gathered, and whether its texts, tokens and numbers are those of a proper content.
#![tactic(auto)]

mod decimals;
mod held;
mod numbers;
mod texts;
mod tokens;

pub use decimals::is_canonical_decimal;
pub use held::{Held, held_in};
pub use numbers::{fractions_fit, numbers_fit, unitless_fit};
pub use texts::texts_fit;
pub use tokens::tokens_fit;
