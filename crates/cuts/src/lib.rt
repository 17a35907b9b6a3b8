// Where a branch goes, each child takes over its cut.
#![tactic(auto)]

ghost use Rattle.std.specs.Prelude.{◌≤◌, length};
ghost use Rattle.rows.specs.Rows.{branch_rows_of, BranchesIn, BranchesLaid};
ghost use Rattle.model.specs.ByNumber.{Line};
ghost use Rattle.closing.specs.Closed.{marked};
ghost use Rattle.cuts.specs.Cuts.{recut};

use model::Branch;

// Of the first n branches, each whose parent's mark is not 1 takes over the cut that the parent has by then. Oldest to newest: the parent's is settled.
pub fn take_over(bt: &mut [u32], n: usize, marks: &[u8])
    requires branches_in { BranchesIn n bt.old × (n ≤ length marks.now) }
    requires line { Line (branch_rows_of bt.old) n }
    ensures { BranchesLaid bt.old (recut (marked marks.now) (branch_rows_of bt.old) n) bt.new }
{
    for i in 1..n {
        let b = rows::branch_at(bt, i);
        let p = branch_marks::row_near(bt, i, b.cut, i - 1);
        if marks[p] == 1 {
            continue;
        }
        let d = rows::branch_at(bt, p);
        rows::set_branch(bt, i, Branch { cut: d.cut, ..b });
    }
}
