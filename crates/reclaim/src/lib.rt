// Request 5: the records that no readable moment needs are freed, and the branches that need not stay then.
#![tactic(auto)]

ghost use Rattle.std.specs.Prelude.{◌≡◌, true, ◌≤◌, ◌<◌, length, take};
ghost use Rattle.model.specs.Store.{moments};
ghost use Rattle.model.specs.Step.{stays};
ghost use Rattle.model.specs.ByNumber.{Line, First, branch, held, Ascend};
ghost use Rattle.model.specs.Wire.{reclaim};
ghost use Rattle.rows.specs.Rows.{branch_rows_of, record_rows_of, name_rows_of, BranchesIn, RecordsIn, NamesIn};
ghost use Rattle.rows.specs.View.{Tables, with_branches, with_records, with_places, with_names, Carried};
ghost use Rattle.closing.specs.Closed.{marked, keep_by};
ghost use Rattle.branch_marks.specs.Marks.{Filled, Zeros, Held, Placed};
ghost use Rattle.deciding.specs.Deciding.{kept_record};
ghost use Rattle.reclaim.specs.Reclaimable.{Reclaimable};
ghost use Rattle.reclaim.specs.Settled.{Settled};

use model::Head;
use rows::{Found, Outcome};

// Room for a byte of each branch.
fn branch_bytes() -> [u8; 4096]
    ensures { Zeros 4096 result }
{
    [0u8; 4096]
}

// Room for a byte of each record.
fn record_bytes() -> [u8; 65536]
    ensures { Zeros 65536 result }
{
    [0u8; 65536]
}

// The marks of nr records: by the moments that decide, unless none is older than the floor.
fn mark_kept(
    bt: &[u32],
    n: usize,
    rt: &[u32],
    nr: usize,
    nt: &[u32],
    k: usize,
    floor: u32,
    rm: &mut [u8],
)
    requires branches_in { BranchesIn n bt.now × (n ≤ 4096) × (0 < n) × RecordsIn nr rt.now × NamesIn k nt.now × (k ≤ 32) × (nr ≤ length rm.old) }
    requires line { Line (branch_rows_of bt.now) n }
    requires floor_value { held (branch_rows_of bt.now) n floor ≡ true }
    requires held { Held (branch_rows_of bt.now) n (moments (take k (name_rows_of nt.now))) }
    requires ascend { Ascend (record_rows_of rt.now) nr }
    requires placed { Placed (branch_rows_of bt.now) n (record_rows_of rt.now) nr }
    ensures { Filled (kept_record (branch_rows_of bt.now) n (record_rows_of rt.now) nr floor (moments (take k (name_rows_of nt.now)))) nr rm.old rm.new }
{
    if deciding::none_older(rt, nr, floor) {
        deciding::keep_young(rt, nr, floor, rm);
        return;
    }
    let mut table = deciding::moments();
    let s = deciding::starts(bt, n, floor, &mut table);
    let c = deciding::named(nt, k, s, &mut table);
    record_marks::mark_records(bt, n, &table[..c], rt, nr, rm);
    deciding::keep_young(rt, nr, floor, rm);
}

// The branches that stay by the floor, the names and the marked records close up, with the cuts that they take over; and how many they are.
fn settle(
    bt: &mut [u32],
    n: usize,
    floor: u32,
    nt: &[u32],
    k: usize,
    rt: &[u32],
    nr: usize,
    kept: &[u8],
) -> usize
    requires branches_in { BranchesIn n bt.old × (n ≤ 4096) × (0 < n) × NamesIn k nt.now × RecordsIn nr rt.now × (nr ≤ length kept.now) }
    requires line { Line (branch_rows_of bt.old) n }
    requires first { First (branch (branch_rows_of bt.old) 0) }
    requires held { Held (branch_rows_of bt.old) n (moments (take k (name_rows_of nt.now))) }
    requires placed { Placed (branch_rows_of bt.old) n (record_rows_of rt.now) nr }
    ensures { Settled (stays floor (moments (take k (name_rows_of nt.now))) (keep_by (marked kept.now) (take nr (record_rows_of rt.now)))) n bt.old bt.new result }
{
    let mut bm = branch_bytes();
    branch_marks::mark_branches(bt, n, floor, nt, k, rt, nr, kept, &mut bm);
    cuts::take_over(bt, n, &bm);
    closing::close_branches(bt, n, &bm)
}

// Request 5, with refusals 8 and 9 in this order. The answer is the number of records freed.
pub fn reclaim(
    head: Head,
    bt: &mut [u32],
    rt: &mut [u32],
    pt: &mut [u32],
    nt: &[u32],
    floor: u32,
) -> Outcome
    requires { Reclaimable head bt.old rt.old pt.old nt.now }
    ensures { (t : Tables) → Carried head (with_places pt.old (with_records rt.old (with_branches bt.old (with_names nt.now t)))) (reclaim floor) result (with_places pt.new (with_records rt.new (with_branches bt.new (with_names nt.now t)))) }
{
    if floor < head.floor {
        return rows::refused(head, 8);
    }
    if head.now < floor {
        return rows::refused(head, 9);
    }
    let n = head.branches as usize;
    let nr = head.records as usize;
    let k = head.names as usize;
    let mut rm = record_bytes();
    mark_kept(bt, n, rt, nr, nt, k, floor, &mut rm);
    let wb = settle(bt, n, floor, nt, k, rt, nr, &rm);
    let wr = closing::close_records(rt, nr, pt, &rm);
    let next = Head {
        size: head.size,
        branches: wb as u32,
        records: wr as u32,
        now: head.now,
        floor: floor,
        names: head.names,
    };
    Outcome {
        head: next,
        refusal: 0,
        value: (nr - wr) as u32,
        found: Found::Nothing,
    }
}
