//! Number literals, as their texts: integers and floats, and the number that an integer stands for.
#![tactic(auto)]

pub mod floats;
pub mod integers;

pub use floats::FloatValue;
pub use integers::IntValue;
