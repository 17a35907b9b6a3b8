// What is put wrong on purpose: one number or two records of a store before a batch, or what the store gave after it.
#![tactic(auto)]

pub mod changes;
pub mod faults;
pub mod live;
mod orders;
pub mod rows;
mod spots;
pub mod turns;
