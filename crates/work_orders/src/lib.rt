// The plain data of a list of work orders.
#![tactic(auto)]

// What a listing reports: a refusal or 0, and how many work orders it listed.
#[derive(Clone, Copy)]
pub struct Listed {
    pub refusal: u32,
    pub count: usize,
}
