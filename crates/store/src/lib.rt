// The requests that store no page: mark, revert and read.
#![tactic(auto)]

ghost use Rattle.std.specs.Prelude.{◌≡◌, ℕ, length};
ghost use Rattle.model.specs.Wire.{mark, revert, read_at};
ghost use Rattle.model.specs.Step.{do_revert};
ghost use Rattle.rows.specs.Rows.{branch_rows_of, NamesIn};
ghost use Rattle.rows.specs.View.{Tables, with_branches, with_records, with_names, store_of, Carried};
ghost use Rattle.store.specs.Asked.{Revertible, Readable};

use model::{Branch, Head, OPEN_END};
use rows::Outcome;

// Seals now; now grows by 1.
pub fn mark(head: Head) -> Outcome
    ensures { (t : Tables) → Carried head t mark result t }
{
    let current = head.now;
    if OPEN_END <= current {
        return rows::refused(head, 10);
    }
    let next = current + 1;
    let after = Head {
        size: head.size,
        branches: head.branches,
        records: head.records,
        now: next,
        floor: head.floor,
        names: head.names,
    };
    rows::accepted(after, current)
}

// The refusal of a revert to a moment, over a branch table of so many rows; 0 where there is none.
pub fn revert_refusal(head: Head, rows: usize, nt: &[u32], to: u32) -> u32
    requires { NamesIn head.names nt.now }
    ensures { (t : Tables) (w : ℕ) → length (branch_rows_of t.branches) ≡ rows → result ≡ (do_revert (store_of head (with_names nt.now t)) to w).answer.refusal }
{
    let below = !naming::readable(head, nt, to);
    let above = head.now <= to;
    let late = OPEN_END <= head.now;
    let full = rows <= head.branches as usize;
    if below {
        return 8;
    }
    if above {
        return 9;
    }
    if late {
        return 10;
    }
    if full {
        return 7;
    }
    0
}

// Seals now as the end of the current branch; a new branch starts after it, with the moment m as its cut, and the work order w.
pub fn revert(head: Head, bt: &mut [u32], nt: &[u32], m: u32, w: u32) -> Outcome
    requires { Revertible head bt.old nt.now }
    ensures { (t : Tables) → Carried head (with_names nt.now (with_branches bt.old t)) (revert m w) result (with_names nt.now (with_branches bt.new t)) }
{
    let refusal = revert_refusal(head, rows::branch_rows(bt), nt, m);
    if refusal != 0 {
        return rows::refused(head, refusal);
    }
    let sealed = head.now;
    let next = sealed + 1;
    let n = head.branches as usize;
    let b = rows::branch_at(bt, n - 1);
    let closed = Branch {
        start: b.start,
        end: sealed,
        cut: b.cut,
        order: b.order,
    };
    rows::set_branch(bt, n - 1, closed);
    let opened = Branch {
        start: next,
        end: OPEN_END,
        cut: m,
        order: w,
    };
    rows::set_branch(bt, n, opened);
    let after = Head {
        size: head.size,
        branches: head.branches + 1,
        records: head.records,
        now: next,
        floor: head.floor,
        names: head.names,
    };
    rows::accepted(after, sealed)
}

// The record whose page the address a has at the moment m.
pub fn read(head: Head, bt: &[u32], rt: &[u32], nt: &[u32], a: u32, m: u32) -> Outcome
    requires { Readable head bt.now rt.now nt.now }
    ensures { (t : Tables) → Carried head (with_names nt.now (with_records rt.now (with_branches bt.now t))) (read_at a m) result (with_names nt.now (with_records rt.now (with_branches bt.now t))) }
{
    let outside = head.size <= a;
    let gone = !naming::readable(head, nt, m);
    let ahead = head.now < m;
    if outside {
        return rows::refused(head, 4);
    }
    if gone {
        return rows::refused(head, 8);
    }
    if ahead {
        return rows::refused(head, 9);
    }
    let nb = head.branches as usize;
    let nr = head.records as usize;
    let found = lookup::find_record(bt, nb, rt, nr, a, m);
    Outcome {
        head,
        refusal: 0,
        value: m,
        found,
    }
}
