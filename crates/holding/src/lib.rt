// Which branch row holds a moment, where the counted rows are chained (check 2 of crate soundness).
#![tactic(auto)]

ghost use Rattle.std.specs.Prelude.{◌≡◌, true, cond, ◌-◌, ◌≤◌, ◌<◌, ltb};
ghost use Rattle.model.specs.Soundness.{chained};
ghost use Rattle.model.specs.ByNumber.{branch, newest_of, held, Stairs};
ghost use Rattle.rows.specs.Rows.{branch_rows_of, BranchesIn};
ghost use Rattle.holding.specs.Search.{FirstEnding, unbroken};

use model::Head;

// The answer to a test that may look at branches, and which of them to look at first the next time.
#[derive(Clone, Copy)]
pub struct Looked {
    pub ok: bool,
    pub row: usize,
}

// 1 where a is below b, else 0.
// Kept: by sums, since of a test as a number the compiler makes a jump, which is guessed wrong every other time, and then the check of
// tables with gaps takes 1.6 times as long. And with 2^33: in the same sums with 2^32 it sees the test.
fn below(a: u32, b: u32) -> usize
    ensures { result ≡ cond (ltb a b) 1 0 }
{
    ((b as u64 + 8589934591 - a as u64) / 8589934592) as usize
}

// The first of n branches that ends at t or later, where the last one does. Each turn moves base or leaves it, without a jump that is guessed wrong every other time.
fn first_ending(bt: &[u32], n: usize, t: u32) -> usize
    requires n_nonzero { (0 < n) × BranchesIn n bt.now × (t ≤ (branch (branch_rows_of bt.now) (n - 1)).end) }
    requires stairs { Stairs (branch_rows_of bt.now) n }
    ensures { FirstEnding (branch_rows_of bt.now) n t result }
{
    // Kept: the library's search is of a slice's elements; a row is four numbers of a flat table, as the C interface lends it.
    let mut base: usize = 0;
    let mut len = n;
    while 1 < len {
        let half = len / 2;
        let b = rows::branch_at(bt, base + half - 1);
        base += half * below(b.end, t);
        len -= half;
    }
    base
}

// The same, where from is below n: from is looked at first, and is the one if it holds t.
fn row_from(bt: &[u32], n: usize, from: usize, t: u32) -> usize
    requires from_lt_n { (from < n) × BranchesIn n bt.now × (t ≤ (branch (branch_rows_of bt.now) (n - 1)).end) }
    requires stairs { Stairs (branch_rows_of bt.now) n }
    ensures { FirstEnding (branch_rows_of bt.now) n t result }
{
    let b = rows::branch_at(bt, from);
    if b.start <= t && t <= b.end {
        return from;
    }
    first_ending(bt, n, t)
}

// Whether one of the first n branches, which are chained, holds the moment t: from the floor to the last one's end one does,
// and below the floor the first that ends at t or later is the only one that can. It is looked at first the next time.
pub fn held_from(bt: &[u32], n: usize, floor: u32, from: usize, t: u32) -> Looked
    requires branches_in { BranchesIn n bt.now × (from < n) }
    requires n_value { chained floor (newest_of (branch_rows_of bt.now) n) ≡ true }
    ensures { (result.ok ≡ held (branch_rows_of bt.now) n t) × (result.row < n) }
{
    let last = rows::branch_at(bt, n - 1);
    if last.end < t {
        return Looked {
            ok: false,
            row: from,
        };
    }
    if floor <= t {
        return Looked {
            ok: true,
            row: from,
        };
    }
    let row = row_from(bt, n, from, t);
    let b = rows::branch_at(bt, row);
    Looked {
        ok: b.start <= t,
        row,
    }
}

// The same of one moment by itself.
pub fn held_in(bt: &[u32], n: usize, floor: u32, t: u32) -> bool
    requires branches_in { BranchesIn n bt.now }
    requires n_value { chained floor (newest_of (branch_rows_of bt.now) n) ≡ true }
    ensures { result ≡ held (branch_rows_of bt.now) n t }
{
    let seen = held_from(bt, n, floor, n - 1, t);
    seen.ok
}

// From which moment on the branches leave no gap: the start of the last one that does not follow the one before it, or 0.
pub fn unbroken_from(head: Head, bt: &[u32]) -> u32
    requires branches_in { BranchesIn head.branches bt.now }
    requires branches_value { chained head.floor (newest_of (branch_rows_of bt.now) head.branches) ≡ true }
    ensures { result ≡ unbroken (newest_of (branch_rows_of bt.now) head.branches) }
{
    for i in (1..head.branches as usize).rev() {
        let b = rows::branch_at(bt, i);
        let c = rows::branch_at(bt, i - 1);
        if b.start != c.end + 1 {
            return b.start;
        }
    }
    0
}
