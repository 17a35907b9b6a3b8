// The store against the reference.
#![tactic(auto)]

mod checks;
pub mod judge;
pub mod live;
pub mod orders;
mod stop;
