// Head and tables as bytes, four a number, most significant first.
#![tactic(auto)]

ghost use Rattle.std.specs.Prelude.{◌≡◌, ◌*◌, length};
ghost use Rattle.rows.specs.Rows.{zeros};
ghost use Rattle.rows.specs.View.{number_tables};
ghost use Rattle.tables.specs.Numbers.{numbers_of, Written, head_of, head_numbers};
ghost use Rattle.tables.specs.Tables.{numbers_in, lengths_fit, Room, Saved};

use model::Head;
use rows::{BRANCH_WIDTH, NAME_WIDTH, RECORD_WIDTH};

// The numbers of the head, and its bytes.
pub const HEAD_NUMBERS: usize = 6;

pub const HEAD_BYTES: usize = HEAD_NUMBERS * 4;

// The most numbers that a table may have: 4,096 branches, 65,536 records, 65,536 places; a name table has 32 rows, always.
pub const BRANCH_NUMBERS: usize = 4096 * BRANCH_WIDTH;

pub const RECORD_NUMBERS: usize = 65536 * RECORD_WIDTH;

pub const PLACE_NUMBERS: usize = 65536;

pub const NAME_NUMBERS: usize = 32 * NAME_WIDTH;

// The bytes of a row, and of the longest table.
const BRANCH_BYTES: usize = BRANCH_WIDTH * 4;

const RECORD_BYTES: usize = RECORD_WIDTH * 4;

const BRANCH_MOST: usize = BRANCH_NUMBERS * 4;

const RECORD_MOST: usize = RECORD_NUMBERS * 4;

const PLACE_MOST: usize = PLACE_NUMBERS * 4;

const NAME_BYTES: usize = NAME_NUMBERS * 4;

// The numbers that the bytes of src spell.
pub fn get_all(src: &[u8], dst: &mut [u32])
    requires { length src.now ≡ length dst.old * 4 }
    ensures { dst.new ≡ numbers_of src.now }
{
    for i in 0..dst.len() {
        let at = i * 4;
        dst[i] = wire::get_number(&src[at..at + 4]) as u32;
    }
}

// The bytes of the numbers of src.
pub fn put_all(src: &[u32], dst: &mut [u8])
    requires { length dst.old ≡ length src.now * 4 }
    ensures { Written src.now dst.new }
{
    for i in 0..src.len() {
        let at = i * 4;
        wire::put_number(&mut dst[at..], src[i]);
    }
}

// The head that twenty-four bytes spell.
pub fn get_head(head: &[u8]) -> Head
    requires { length head.now ≡ 24 }
    ensures { result ≡ head_of (numbers_of head.now) }
{
    let mut ns = [0u32; HEAD_NUMBERS];
    get_all(head, &mut ns);
    Head {
        size: ns[0],
        branches: ns[1],
        records: ns[2],
        now: ns[3],
        floor: ns[4],
        names: ns[5],
    }
}

// A head as twenty-four bytes.
pub fn put_head(head: &mut [u8], h: Head)
    requires { length head.old ≡ 24 }
    ensures { Written (head_numbers h) head.new }
{
    let ns = [h.size, h.branches, h.records, h.now, h.floor, h.names];
    put_all(&ns, head);
}

// Whether the lengths in bytes of a head and of the four tables are such as may be lent.
#[tactic(auto, using(crate::proofs::Laws::lengths_no))]
pub fn lengths_fit(h: usize, b: usize, r: usize, p: usize, n: usize) -> bool
    ensures { result ≡ lengths_fit h b r p n }
{
    if h != HEAD_BYTES {
        return false;
    }
    if b % BRANCH_BYTES != 0 {
        return false;
    }
    if BRANCH_MOST < b {
        return false;
    }
    if r % RECORD_BYTES != 0 {
        return false;
    }
    if RECORD_MOST < r {
        return false;
    }
    if p % 4 != 0 {
        return false;
    }
    if PLACE_MOST < p {
        return false;
    }
    if n != NAME_BYTES {
        return false;
    }
    true
}

// The numbers of the four tables.
pub fn load(
    branches: &[u8],
    records: &[u8],
    places: &[u8],
    names: &[u8],
    bt: &mut [u32],
    rt: &mut [u32],
    pt: &mut [u32],
    nt: &mut [u32],
)
    requires { Room (number_tables branches.now records.now places.now names.now) (number_tables bt.old rt.old pt.old nt.old) }
    ensures { number_tables bt.new rt.new pt.new nt.new ≡ numbers_in (number_tables branches.now records.now places.now names.now) }
{
    get_all(branches, bt);
    get_all(records, rt);
    get_all(places, pt);
    get_all(names, nt);
}

// The bytes of the four tables.
pub fn save(
    bt: &[u32],
    rt: &[u32],
    pt: &[u32],
    nt: &[u32],
    branches: &mut [u8],
    records: &mut [u8],
    places: &mut [u8],
    names: &mut [u8],
)
    requires { Room (number_tables branches.old records.old places.old names.old) (number_tables bt.now rt.now pt.now nt.now) }
    ensures { Saved (number_tables bt.now rt.now pt.now nt.now) (number_tables branches.new records.new places.new names.new) }
{
    put_all(bt, branches);
    put_all(rt, records);
    put_all(pt, places);
    put_all(nt, names);
}

// Room for a table of N numbers.
#[tactic(auto, unfolding(rows::specs::Rows::zeros))]
pub fn room<const N: usize>() -> [u32; N]
    ensures { result ≡ zeros N }
{
    [0u32; N]
}
