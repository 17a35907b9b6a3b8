// Rows close up by their marks, and the places of the records follow.
#![tactic(auto)]

ghost use Rattle.std.specs.Prelude.{◌≤◌, ◌<◌, length};
ghost use Rattle.rows.specs.Rows.{record_rows_of, BranchesIn, RecordsIn};
ghost use Rattle.model.specs.ByNumber.{Names};
ghost use Rattle.closing.specs.Closed.{ClosedRecords, ClosedBranches};

use rows::{ZERO_BRANCH, ZERO_RECORD};

// The first n records whose mark is 1 close up, the rows they leave become zero, and each record's place names its new row or is free.
// A place row is a number of 32 bits, so n is one.
pub fn close_records(rt: &mut [u32], n: usize, pt: &mut [u32], marks: &[u8]) -> usize
    requires n_bound { (n < 4294967296) × RecordsIn n rt.old × (n ≤ length marks.now) }
    requires names { Names (record_rows_of rt.old) n pt.old }
    ensures { ClosedRecords marks.now n rt.old rt.new pt.old pt.new result }
{
    let mut w: usize = 0;
    for i in 0..n {
        let r = rows::record_at(rt, i);
        rows::set_record(rt, i, ZERO_RECORD);
        let p = r.place as usize;
        if marks[i] == 1 {
            rows::set_record(rt, w, r);
            w += 1;
            pt[p] = w as u32;
        } else {
            pt[p] = 0;
        }
    }
    w
}

// The first n branches whose mark is 1 close up, and the rows they leave become zero.
pub fn close_branches(bt: &mut [u32], n: usize, marks: &[u8]) -> usize
    requires { BranchesIn n bt.old × (n ≤ length marks.now) }
    ensures { ClosedBranches marks.now n bt.old bt.new result }
{
    let mut w: usize = 0;
    for i in 0..n {
        let b = rows::branch_at(bt, i);
        rows::set_branch(bt, i, ZERO_BRANCH);
        if marks[i] == 1 {
            rows::set_branch(bt, w, b);
            w += 1;
        }
    }
    w
}
