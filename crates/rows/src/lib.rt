// Rows of flat tables, and what a request gives back.
#![tactic(auto)]

ghost use Rattle.std.specs.Prelude.{◌≡◌, suc, ◌<◌, length, set};
ghost use Rattle.model.specs.ByNumber.{branch, entry, name_row};
ghost use Rattle.rows.specs.View.{refused_with, accepted_with};
ghost use Rattle.rows.specs.Rows.{branch_rows_of, record_rows_of, name_rows_of, BranchSet, RecordSet, NameSet, BranchesIn, RecordsIn, NamesIn};

use model::{Branch, Head, Name, Record};

// How many numbers a row has.
pub const BRANCH_WIDTH: usize = 4;

pub const RECORD_WIDTH: usize = 3;

pub const NAME_WIDTH: usize = 3;

// A row of zeros.
pub const ZERO_BRANCH: Branch = Branch {
    start: 0,
    end: 0,
    cut: 0,
    order: 0,
};

pub const ZERO_RECORD: Record = Record {
    address: 0,
    moment: 0,
    place: 0,
};

pub const ZERO_NAME: Name = Name {
    high: 0,
    low: 0,
    moment: 0,
};

// What a lookup finds.
#[derive(Clone, Copy)]
pub enum Found {
    Row(Record),
    Nothing,
}

// What a request gives back: the head, a refusal or 0, the number, and the record that a read found.
#[derive(Clone, Copy)]
pub struct Outcome {
    pub head: Head,
    pub refusal: u32,
    pub value: u32,
    pub found: Found,
}

// A refused request: the head as it was, and number 0.
pub fn refused(head: Head, refusal: u32) -> Outcome
    ensures { result ≡ refused_with head refusal }
{
    Outcome {
        head,
        refusal,
        value: 0,
        found: Found::Nothing,
    }
}

// An accepted request that gives no page.
pub fn accepted(head: Head, value: u32) -> Outcome
    ensures { result ≡ accepted_with head value }
{
    Outcome {
        head,
        refusal: 0,
        value,
        found: Found::Nothing,
    }
}

// How many whole rows a branch table has.
pub fn branch_rows(t: &[u32]) -> usize
    ensures { result ≡ length (branch_rows_of t.now) }
{
    t.len() / BRANCH_WIDTH
}

// How many whole rows a record table has.
pub fn record_rows(t: &[u32]) -> usize
    ensures { result ≡ length (record_rows_of t.now) }
{
    t.len() / RECORD_WIDTH
}

pub fn branch_at(t: &[u32], i: usize) -> Branch
    requires { BranchesIn (suc i) t.now }
    ensures { result ≡ branch (branch_rows_of t.now) i }
{
    let at = i * BRANCH_WIDTH;
    Branch {
        start: t[at],
        end: t[at + 1],
        cut: t[at + 2],
        order: t[at + 3],
    }
}

pub fn record_at(t: &[u32], i: usize) -> Record
    requires { RecordsIn (suc i) t.now }
    ensures { result ≡ entry (record_rows_of t.now) i }
{
    let at = i * RECORD_WIDTH;
    Record {
        address: t[at],
        moment: t[at + 1],
        place: t[at + 2],
    }
}

pub fn name_at(t: &[u32], i: usize) -> Name
    requires { NamesIn (suc i) t.now }
    ensures { result ≡ name_row (name_rows_of t.now) i }
{
    let at = i * NAME_WIDTH;
    Name {
        high: t[at],
        low: t[at + 1],
        moment: t[at + 2],
    }
}

// One number of a table, and no other.
fn put(t: &mut [u32], i: usize, v: u32)
    requires { i < length t.old }
    ensures { t.new ≡ set t.old i v }
{
    t[i] = v;
}

pub fn set_branch(t: &mut [u32], i: usize, b: Branch)
    requires { BranchesIn (suc i) t.old }
    ensures { BranchSet t.old i b t.new }
{
    let at = i * BRANCH_WIDTH;
    put(t, at, b.start);
    put(t, at + 1, b.end);
    put(t, at + 2, b.cut);
    put(t, at + 3, b.order);
}

pub fn set_record(t: &mut [u32], i: usize, b: Record)
    requires { RecordsIn (suc i) t.old }
    ensures { RecordSet t.old i b t.new }
{
    let at = i * RECORD_WIDTH;
    put(t, at, b.address);
    put(t, at + 1, b.moment);
    put(t, at + 2, b.place);
}

pub fn set_name(t: &mut [u32], i: usize, n: Name)
    requires { NamesIn (suc i) t.old }
    ensures { NameSet t.old i n t.new }
{
    let at = i * NAME_WIDTH;
    put(t, at, n.high);
    put(t, at + 1, n.low);
    put(t, at + 2, n.moment);
}
