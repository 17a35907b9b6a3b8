// The two tables of a trial, where each number stands in them, the rows and the requests that they hold, and rules.
#![tactic(auto)]

pub mod layout;
pub mod names;
pub mod request;
pub mod rows;
pub mod rules;
pub mod words;
