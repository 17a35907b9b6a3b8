// Check 3: the records and their places, and how many record rows are read.
#![tactic(auto)]

ghost use Rattle.std.specs.Prelude.{◌≡◌, true, suc, ◌-◌, ◌<◌};
ghost use Rattle.model.specs.Soundness.{chained, precedes, used};
ghost use Rattle.model.specs.RowsRead.{Keeps};
ghost use Rattle.model.specs.ByNumber.{newest_of, entry};
ghost use Rattle.rows.specs.Rows.{branch_rows_of, record_rows_of, BranchesIn, RecordsIn};
ghost use Rattle.rows.specs.View.{Tables, with_branches, with_records, with_places, store_of};
ghost use Rattle.record_check.specs.Found.{records_found, Tells};

use holding::Looked;
use model::Head;

// What the table checks find: 0, or the number of the first that refuses; and how many record rows they read.
#[derive(Clone, Copy)]
pub struct Finding {
    pub refusal: u32,
    pub rows: usize,
}

// Whether the record i stands after the one before it.
// Kept: ifs that end early, since with one condition the check of 65,536 records took a tenth longer, and with pairs compared a quarter.
#[tactic(auto, unfolding(model::specs::Soundness::precedes))]
fn after(rt: &[u32], i: usize) -> bool
    requires { (0 < i) × RecordsIn (suc i) rt.now }
    ensures { result ≡ precedes (entry (record_rows_of rt.now) (i - 1)) (entry (record_rows_of rt.now) i) }
{
    let q = rows::record_at(rt, i - 1);
    let r = rows::record_at(rt, i);
    if q.address < r.address {
        return true;
    }
    if q.address != r.address {
        return false;
    }
    q.moment < r.moment
}

// Whether the counted record i keeps the record rules: against the one before it, and by itself. Its number is made before the place
// row is read: else the compiler, which sees that the two are the same, lets the loop go on by what was read, and wait for it.
fn row_kept(
    head: Head,
    bt: &[u32],
    rt: &[u32],
    pt: &[u32],
    low: u32,
    i: usize,
    from: usize,
) -> Looked
    requires branches_in { BranchesIn head.branches bt.now × RecordsIn head.records rt.now × (i < head.records) × (from < head.branches) }
    requires branches_value { chained low (newest_of (branch_rows_of bt.now) head.branches) ≡ true }
    ensures { (result.row < head.branches) × ((t : Tables) → Tells result.ok (Keeps (store_of head (with_places pt.now (with_records rt.now (with_branches bt.now t)))) i)) }
{
    let number = i + 1;
    let no = Looked {
        ok: false,
        row: from,
    };
    if 0 < i && !after(rt, i) {
        return no;
    }
    let r = rows::record_at(rt, i);
    if head.size <= r.address || head.now < r.moment {
        return no;
    }
    let p = r.place as usize;
    if pt.len() <= p || pt[p] as usize != number {
        return no;
    }
    holding::held_from(bt, head.branches as usize, low, from, r.moment)
}

// How many place rows are in use. In a `for`, of which the compiler takes many at a time; of a filter and its count it takes one by one,
// ten times as long.
#[tactic(auto, using(crate::proofs::Used::used_none, crate::proofs::Used::used_more, crate::proofs::Used::used_free, crate::proofs::Used::used_all))]
fn in_use(pt: &[u32]) -> usize
    ensures { result ≡ used pt.now }
{
    let mut n: usize = 0;
    for p in pt {
        if *p != 0 {
            n += 1;
        }
    }
    n
}

// Check 3: order and places together, in one pass over the counted records; then one over the places.
pub fn records_checked(head: Head, bt: &[u32], rt: &[u32], pt: &[u32]) -> Finding
    requires branches_in { BranchesIn head.branches bt.now × RecordsIn head.records rt.now }
    requires branches_value { chained head.floor (newest_of (branch_rows_of bt.now) head.branches) ≡ true }
    ensures { (t : Tables) → result ≡ records_found (store_of head (with_places pt.now (with_records rt.now (with_branches bt.now t)))) }
{
    let n = head.records as usize;
    let low = holding::unbroken_from(head, bt);
    let mut from: usize = 0;
    for i in 0..n {
        let seen = row_kept(head, bt, rt, pt, low, i, from);
        if !seen.ok {
            return Finding {
                refusal: 3,
                rows: i + 1,
            };
        }
        from = seen.row;
    }
    let u = in_use(pt);
    if u != n {
        return Finding {
            refusal: 3,
            rows: n,
        };
    }
    Finding {
        refusal: 0,
        rows: n,
    }
}
