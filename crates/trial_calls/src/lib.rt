// The calls of the store.
#![tactic(auto)]

pub mod calls;
mod copies;
pub mod lent;
