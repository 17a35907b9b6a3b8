// The table checks 1, 2 and 3.
#![tactic(auto)]

ghost use Rattle.std.specs.Prelude.{◌≡◌, true, ◌&&◌, suc, ◌+◌, ◌-◌, ◌≤◌, ◌<◌, take, drop};
ghost use Rattle.model.specs.Soundness.{chained, in_range, branches_sound, names_sound};
ghost use Rattle.model.specs.ByNumber.{newest_of};
ghost use Rattle.rows.specs.Rows.{branch_rows_of, name_rows_of, BranchesIn, NamesIn};
ghost use Rattle.rows.specs.View.{Tables, tables, with_branches, store_of};
ghost use Rattle.soundness.specs.Check.{whole_tables, allowed_of, finding_of};

use model::{Head, MOST_ORDER, OPEN_END};
use record_check::Finding;
use rows::{BRANCH_WIDTH, NAME_WIDTH, RECORD_WIDTH};

// Whether the branch i, which is not the first, goes on the chain of those before it.
fn linked(bt: &[u32], i: usize, floor: u32) -> bool
    requires i_nonzero { (0 < i) × BranchesIn (suc i) bt.now }
    requires i_value { chained floor (newest_of (branch_rows_of bt.now) i) ≡ true }
    ensures { result ≡ chained floor (newest_of (branch_rows_of bt.now) (suc i)) }
{
    let b = rows::branch_at(bt, i);
    let c = rows::branch_at(bt, i - 1);
    b.order <= MOST_ORDER
        && b.start <= b.end
        && c.end < b.start
        && (b.start == c.end + 1 || b.start <= floor)
        && holding::held_in(bt, i, floor, b.cut)
}

// Check 2 of the branches, in one pass over the counted ones.
#[tactic(auto, using(crate::proofs::Branches::sound_first, crate::proofs::Branches::first_chained, crate::proofs::Branches::sound_not, crate::proofs::Branches::sound_last))]
fn branches_sound(head: Head, bt: &[u32]) -> bool
    requires { (1 ≤ head.branches) × BranchesIn head.branches bt.now }
    ensures { (t : Tables) → result ≡ branches_sound (store_of head (with_branches bt.now t)) }
{
    let n = head.branches as usize;
    let first = rows::branch_at(bt, 0);
    if first.start != 0 || first.cut != 0 || first.order != 0 {
        return false;
    }
    for i in 1..n {
        if !linked(bt, i, head.floor) {
            return false;
        }
    }
    let last = rows::branch_at(bt, n - 1);
    last.end == OPEN_END && last.start <= head.now
}

// Whether the name i is sound, where those after it are.
#[tactic(auto, using(crate::proofs::Names::named_on))]
fn name_sound(head: Head, bt: &[u32], nt: &[u32], i: usize) -> bool
    requires branches_in { BranchesIn head.branches bt.now × NamesIn head.names nt.now × (i < head.names) }
    requires branches_value { chained head.floor (newest_of (branch_rows_of bt.now) head.branches) ≡ true }
    requires nt_value { names_sound head.now (newest_of (branch_rows_of bt.now) head.branches) (drop (i + 1) (take head.names (name_rows_of nt.now))) ≡ true }
    ensures { result ≡ names_sound head.now (newest_of (branch_rows_of bt.now) head.branches) (drop i (take head.names (name_rows_of nt.now))) }
{
    let x = rows::name_at(nt, i);
    x.moment < head.now
        && !naming::is_given(nt, i + 1, head.names as usize, x.high, x.low)
        && holding::held_in(bt, head.branches as usize, head.floor, x.moment)
}

// Check 2 of the names, from the last to the first.
#[tactic(auto, using(crate::proofs::Names::names_end, crate::proofs::Names::names_from))]
fn names_sound(head: Head, bt: &[u32], nt: &[u32]) -> bool
    requires branches_in { BranchesIn head.branches bt.now × NamesIn head.names nt.now }
    requires branches_value { chained head.floor (newest_of (branch_rows_of bt.now) head.branches) ≡ true }
    ensures { result ≡ names_sound head.now (newest_of (branch_rows_of bt.now) head.branches) (take head.names (name_rows_of nt.now)) }
{
    for i in (0..head.names as usize).rev() {
        if !name_sound(head, bt, nt, i) {
            return false;
        }
    }
    true
}

// Whether the volume size and the lengths are allowed: tables of lb, lr, lp and ln numbers, a slab of ls bytes.
pub fn sizes_allowed(size: u32, lb: usize, lr: usize, lp: usize, ln: usize, ls: usize) -> bool
    ensures { result ≡ allowed_of size lb lr lp ln ls }
{
    lb % BRANCH_WIDTH == 0
        && lr % RECORD_WIDTH == 0
        && 1 <= size
        && size <= 65536
        && 1 <= lb / BRANCH_WIDTH
        && lb / BRANCH_WIDTH <= 4096
        && 1 <= lr / RECORD_WIDTH
        && lr / RECORD_WIDTH <= 65536
        && 1 <= lp
        && lp <= 65536
        && ln == 32 * NAME_WIDTH
        && ls == 256 * lp
}

// Check 1.
#[tactic(auto, using(crate::proofs::Sizes::in_range_by))]
fn in_range(head: Head, bt: &[u32], rt: &[u32], pt: &[u32], nt: &[u32], slab: &[u8]) -> bool
    ensures { result ≡ (whole_tables (tables bt.now rt.now pt.now nt.now slab.now) && in_range (store_of head (tables bt.now rt.now pt.now nt.now slab.now))) }
{
    sizes_allowed(
        head.size,
        bt.len(),
        rt.len(),
        pt.len(),
        nt.len(),
        slab.len(),
    ) && 1 <= head.branches
        && head.branches as usize <= bt.len() / BRANCH_WIDTH
        && head.records as usize <= rt.len() / RECORD_WIDTH
        && head.names <= 32
        && head.floor <= head.now
}

// The table checks, in their order.
pub fn check(head: Head, bt: &[u32], rt: &[u32], pt: &[u32], nt: &[u32], slab: &[u8]) -> Finding
    ensures { result ≡ finding_of head (tables bt.now rt.now pt.now nt.now slab.now) }
{
    let ranges = in_range(head, bt, rt, pt, nt, slab);
    if !ranges {
        return Finding {
            refusal: 1,
            rows: 0,
        };
    }
    let chain = branches_sound(head, bt);
    if !chain {
        return Finding {
            refusal: 2,
            rows: 0,
        };
    }
    let named = names_sound(head, bt, nt);
    if !named {
        return Finding {
            refusal: 2,
            rows: 0,
        };
    }
    record_check::records_checked(head, bt, rt, pt)
}
