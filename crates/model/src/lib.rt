// The store's plain data.
#![tactic(auto)]

// The end of a branch that is still open, which is also the last moment.
pub const OPEN_END: u32 = 4294967295;

// The highest work order.
pub const MOST_ORDER: u32 = 65535;

// A branch: its first and its last moment, the moment that it was cut from, and the work order of the revert that began it.
#[derive(Clone, Copy)]
pub struct Branch {
    pub start: u32,
    pub end: u32,
    pub cut: u32,
    pub order: u32,
}

#[derive(Clone, Copy)]
pub struct Record {
    pub address: u32,
    pub moment: u32,
    pub place: u32,
}

// A name of 8 bytes, as two numbers of 4, and the moment that it stands for.
#[derive(Clone, Copy)]
pub struct Name {
    pub high: u32,
    pub low: u32,
    pub moment: u32,
}

#[derive(Clone, Copy)]
pub struct Head {
    pub size: u32,
    pub branches: u32,
    pub records: u32,
    pub now: u32,
    pub floor: u32,
    pub names: u32,
}
