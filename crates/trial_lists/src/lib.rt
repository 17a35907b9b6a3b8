// The lists of requests, and their bytes.
#![tactic(auto)]

pub mod encoding;
pub mod lists;
