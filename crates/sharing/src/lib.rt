//! Sharing out the stake of a member that died.
#![tactic(auto)]

mod dealing;
mod estate;
#[cfg(test)]
mod tests;
mod unshared;

pub use dealing::share;
pub use unshared::Unshared;
