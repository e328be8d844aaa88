//! The circle of units: how many each member has, where they lie, whose each of them is, and the turn.
#![tactic(auto)]

mod circle;
mod holding;
mod place;
#[cfg(test)]
mod tests;

pub use circle::Circle;
pub use holding::units;
pub use place::{owner, start};
