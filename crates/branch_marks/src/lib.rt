// The branch that holds a moment, and a byte for each branch: 1 where a reclaim keeps it.
#![tactic(auto)]

ghost use Rattle.std.specs.Prelude.{◌≡◌, [], true, ◌≤◌, ◌<◌, length, take};
ghost use Rattle.model.specs.Store.{moments};
ghost use Rattle.model.specs.Step.{stays};
ghost use Rattle.model.specs.ByNumber.{Stairs, held};
ghost use Rattle.rows.specs.Rows.{branch_rows_of, record_rows_of, name_rows_of, BranchesIn, RecordsIn, NamesIn};
ghost use Rattle.closing.specs.Closed.{marked, keep_by};
ghost use Rattle.branch_marks.specs.Marks.{Holder, Zeros, Held, Placed, Filled, bit, held_too, older_moments, kept_branch};

use model::Branch;

// Room for a number of each branch.
pub fn numbers() -> [u32; 4096]
    ensures { Zeros 4096 result }
{
    [0u32; 4096]
}

// The row of the first n that holds the moment t.
pub fn row_holding(bt: &[u32], n: usize, t: u32) -> usize
    requires branches_in { BranchesIn n bt.now }
    requires stairs { Stairs (branch_rows_of bt.now) n }
    requires t_value { held (branch_rows_of bt.now) n t ≡ true }
    ensures { Holder (branch_rows_of bt.now) n t result }
{
    // Kept: the library's search is of a slice's elements; a row is four numbers of a flat table, as the C interface lends it.
    let mut lo: usize = 0;
    let mut hi = n;
    while lo + 1 < hi {
        let mid = lo + (hi - lo) / 2;
        let b = rows::branch_at(bt, mid);
        if b.start <= t {
            lo = mid;
        } else {
            hi = mid;
        }
    }
    lo
}

// The row that holds the moment m: i or the one before it if they do, else by search.
pub fn row_near(bt: &[u32], n: usize, m: u32, i: usize) -> usize
    requires branches_in { BranchesIn n bt.now × (i < n) }
    requires stairs { Stairs (branch_rows_of bt.now) n }
    requires m_value { held (branch_rows_of bt.now) n m ≡ true }
    ensures { Holder (branch_rows_of bt.now) n m result }
{
    let b = rows::branch_at(bt, i);
    if b.start <= m {
        if m <= b.end {
            return i;
        }
        return row_holding(bt, n, m);
    }
    if i == 0 {
        return row_holding(bt, n, m);
    }
    let d = rows::branch_at(bt, i - 1);
    if d.start <= m {
        return i - 1;
    }
    row_holding(bt, n, m)
}

// 1 for the first row and for one that ends at or above the floor, else 0.
fn first_or_late(b: Branch, floor: u32) -> u8
    ensures { result ≡ bit (stays floor [] [] b) }
{
    u8::from(b.start == 0 || floor <= b.end)
}

// The bytes of n rows by their starts and ends.
fn mark_ends(bt: &[u32], n: usize, floor: u32, marks: &mut [u8])
    requires { BranchesIn n bt.now × (n ≤ length marks.old) }
    ensures { Filled (kept_branch (branch_rows_of bt.now) floor [] []) n marks.old marks.new }
{
    for i in 0..n {
        marks[i] = first_or_late(rows::branch_at(bt, i), floor);
    }
}

// Rows that hold a moment of k names are marked too. Each is looked for near the one before.
fn mark_named(bt: &[u32], n: usize, nt: &[u32], k: usize, marks: &mut [u8])
    requires branches_in { BranchesIn n bt.now × (0 < n) × NamesIn k nt.now × (n ≤ length marks.old) }
    requires stairs { Stairs (branch_rows_of bt.now) n }
    requires held { Held (branch_rows_of bt.now) n (moments (take k (name_rows_of nt.now))) }
    ensures { Filled (held_too (branch_rows_of bt.now) (moments (take k (name_rows_of nt.now))) marks.old) n marks.old marks.new }
{
    let mut i: usize = 0;
    for q in 0..k {
        let name = rows::name_at(nt, q);
        i = row_near(bt, n, name.moment, i);
        marks[i] = 1;
    }
}

// Rows that hold a kept record older than the floor are marked too. A younger one lies in a row that ends at or above the floor.
fn mark_kept(bt: &[u32], n: usize, rt: &[u32], nr: usize, kept: &[u8], floor: u32, marks: &mut [u8])
    requires branches_in { BranchesIn n bt.now × (0 < n) × RecordsIn nr rt.now × (nr ≤ length kept.now) × (n ≤ length marks.old) }
    requires stairs { Stairs (branch_rows_of bt.now) n }
    requires placed { Placed (branch_rows_of bt.now) n (record_rows_of rt.now) nr }
    ensures { Filled (held_too (branch_rows_of bt.now) (older_moments floor (keep_by (marked kept.now) (take nr (record_rows_of rt.now)))) marks.old) n marks.old marks.new }
{
    let mut i: usize = 0;
    for j in 0..nr {
        let byte = kept[j];
        let r = rows::record_at(rt, j);
        if byte != 1 {
            continue;
        }
        if floor <= r.moment {
            continue;
        }
        i = row_near(bt, n, r.moment, i);
        marks[i] = 1;
    }
}

// A byte for each of n rows: 1 where a reclaim to the floor keeps it, with k names and the kept ones of nr records.
pub fn mark_branches(
    bt: &[u32],
    n: usize,
    floor: u32,
    nt: &[u32],
    k: usize,
    rt: &[u32],
    nr: usize,
    kept: &[u8],
    marks: &mut [u8],
)
    requires branches_in { BranchesIn n bt.now × (0 < n) × NamesIn k nt.now × RecordsIn nr rt.now × (nr ≤ length kept.now) × (n ≤ length marks.old) }
    requires stairs { Stairs (branch_rows_of bt.now) n }
    requires held { Held (branch_rows_of bt.now) n (moments (take k (name_rows_of nt.now))) }
    requires placed { Placed (branch_rows_of bt.now) n (record_rows_of rt.now) nr }
    ensures { Filled (kept_branch (branch_rows_of bt.now) floor (moments (take k (name_rows_of nt.now))) (keep_by (marked kept.now) (take nr (record_rows_of rt.now)))) n marks.old marks.new }
{
    mark_ends(bt, n, floor, marks);
    mark_named(bt, n, nt, k, marks);
    mark_kept(bt, n, rt, nr, kept, floor, marks);
}
