// The live disk's plain data.
#![tactic(auto)]

// Where a page lies: 256 bytes from an offset of the live disk or of the slab on, or nowhere.
#[derive(Clone, Copy)]
pub enum Spot {
    Nowhere,
    OnDisk(usize),
    InSlab(usize),
}

// What a live read finds: a refusal or 0, and where the page lies.
#[derive(Clone, Copy)]
pub struct Located {
    pub refusal: u32,
    pub spot: Spot,
}

// What a copying step reports: a refusal or 0, and how many pages it copied.
#[derive(Clone, Copy)]
pub struct Copied {
    pub refusal: u32,
    pub count: u32,
}
