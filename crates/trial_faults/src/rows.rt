// Faults in what a reclaim leaves of the branch rows: a row gone that stays, a cut that is not taken over, a work order that is, or no row
// gone; and in the work orders that a revert leaves.
ghost use Rattle.std.specs.Prelude.{◌≡◌, get_or};

use crate::spots::{Rows, Spot};
use trial_words::layout::{
    BRANCH_TABLE, COUNT_BEFORE, COUNT_GIVEN, FAULT, HEAD_BRANCHES, HEAD_FLOOR, HEAD_NAMES,
    HEAD_RECORDS, Numbers, ROWS_BEFORE, ROWS_GIVEN, name_row, record_row,
};
use trial_words::rows::{copy_rows, holds, remove, row_at};
use trial_words::words::{get, minus, number_at, plus, put};

// The branch rows before a batch are noted. Answers their count.
pub fn note_before(w: &mut Numbers) -> u32
    ensures { result ≡ get_or w.new 448 0 }
{
    if get(w, FAULT) >= 50 {
        copy_rows(w, BRANCH_TABLE, ROWS_BEFORE);
        put(w, COUNT_BEFORE, get(w, HEAD_BRANCHES));
    }
    number_at(w, COUNT_BEFORE)
}

// The reasons for which a row stays: it is the first, it ends at the floor or above it, it holds a named moment or a record.
#[derive(Clone, Copy, PartialEq, Eq)]
struct Reasons {
    first: bool,
    at_floor: bool,
    above_floor: bool,
    named: bool,
    recorded: bool,
}

// For none of these.
const NO_REASON: Reasons = Reasons {
    first: false,
    at_floor: false,
    above_floor: false,
    named: false,
    recorded: false,
};

// Why a row stays.
fn why_kept(w: &Numbers, row: u32) -> Reasons {
    let end = get(w, plus(row, 1));
    let floor = get(w, HEAD_FLOOR);
    Reasons {
        first: get(w, row) == 0,
        at_floor: end == floor,
        above_floor: end > floor,
        named: (0..get(w, HEAD_NAMES)).any(|k| holds(w, row, get(w, plus(name_row(k), 2)))),
        recorded: (0..get(w, HEAD_RECORDS)).any(|k| holds(w, row, get(w, plus(record_row(k), 1)))),
    }
}

// After an accepted reclaim.
pub(crate) fn in_reclaim(w: &Numbers, fault: u32) -> Option<Spot> {
    let n = get(w, HEAD_BRANCHES);
    let rows = match fault {
        50 => kept_for(
            w,
            Reasons {
                recorded: true,
                ..NO_REASON
            },
            n,
        )?,
        51 => kept_for(
            w,
            Reasons {
                named: true,
                ..NO_REASON
            },
            n,
        )?,
        52 => kept_for(
            w,
            Reasons {
                at_floor: true,
                ..NO_REASON
            },
            n,
        )?,
        53 => kept_for(
            w,
            Reasons {
                first: true,
                ..NO_REASON
            },
            n,
        )?,
        54 | 55 => taken_over(w, fault, n)?,
        95 => order_taken_over(w, n)?,
        _ if n < get(w, COUNT_BEFORE) => Rows::AsBefore,
        _ => return None,
    };
    Some(Spot::BranchRows(rows))
}

// The first row that stays for these reasons only.
fn kept_for(w: &Numbers, due: Reasons, n: u32) -> Option<Rows> {
    (0..n)
        .find(|k| why_kept(w, row_at(BRANCH_TABLE, *k)) == due)
        .map(Rows::Gone)
}

// The first row whose cut the fault makes another.
fn taken_over(w: &Numbers, fault: u32, n: u32) -> Option<Rows> {
    (0..n)
        .find(|k| other_cut(w, fault, *k) != get(w, cut_at(*k)))
        .map(Rows::Recut)
}

// The first row with a cut that was taken over, where its work order would be another if that were taken over with it.
fn order_taken_over(w: &Numbers, n: u32) -> Option<Rows> {
    (0..n)
        .find(|k| order_with_cut(w, *k) != get(w, order_at(*k)))
        .map(Rows::Reordered)
}

// Where the cut of the k-th row stands.
fn cut_at(k: u32) -> u32 {
    plus(row_at(BRANCH_TABLE, k), 2)
}

// Where its work order stands.
fn order_at(k: u32) -> u32 {
    plus(row_at(BRANCH_TABLE, k), 3)
}

// The i-th number, before the batch, of the row that held a moment; 0 where none did.
fn before(w: &Numbers, moment: u32, i: u32) -> u32 {
    (0..get(w, COUNT_BEFORE))
        .map(|k| row_at(ROWS_BEFORE, k))
        .find(|row| holds(w, *row, moment))
        .map_or(0, |row| get(w, plus(row, i)))
}

// The cut of the k-th row before the batch.
fn cut_before(w: &Numbers, k: u32) -> u32 {
    before(w, get(w, row_at(BRANCH_TABLE, k)), 2)
}

// Where the k-th row's cut was taken over: its cut before, or that of the row which held it.
fn other_cut(w: &Numbers, fault: u32, k: u32) -> u32 {
    let given = get(w, cut_at(k));
    let cut = cut_before(w, k);
    if cut == given || fault == 54 {
        cut
    } else {
        before(w, cut, 2)
    }
}

// The work order of the k-th row; where its cut was taken over, that of the row which held its cut before.
pub(crate) fn order_with_cut(w: &Numbers, k: u32) -> u32 {
    let cut = cut_before(w, k);
    if cut == get(w, cut_at(k)) {
        get(w, order_at(k))
    } else {
        before(w, cut, 3)
    }
}

// The work order that a fault puts into the k-th row: 0; that of the row behind it; or that of its cut.
fn other_order(w: &Numbers, fault: u32, k: u32) -> u32 {
    match fault {
        93 => 0,
        94 => get(w, order_at(plus(k, 1))),
        _ => order_with_cut(w, k),
    }
}

// The last row, which an accepted revert made, without its work order; or the row before it with that.
pub(crate) fn in_revert(w: &Numbers, fault: u32) -> Option<Spot> {
    let k = minus(get(w, HEAD_BRANCHES), minus(fault, 92));
    if other_order(w, fault, k) == get(w, order_at(k)) {
        None
    } else {
        Some(Spot::BranchRows(Rows::Reordered(k)))
    }
}

// The rows that the store gave are noted, and the fault is put in; or they stand again.
pub(crate) fn shift(w: &mut Numbers, rows: Rows, put_in: bool) {
    if put_in {
        copy_rows(w, BRANCH_TABLE, ROWS_GIVEN);
        put(w, COUNT_GIVEN, get(w, HEAD_BRANCHES));
        change(w, rows);
    } else {
        copy_rows(w, ROWS_GIVEN, BRANCH_TABLE);
        put(w, HEAD_BRANCHES, get(w, COUNT_GIVEN));
    }
}

// The branch rows as the fault has them.
fn change(w: &mut Numbers, rows: Rows) {
    let fault = get(w, FAULT);
    match rows {
        Rows::Gone(k) => {
            let n = get(w, HEAD_BRANCHES);
            remove(w, BRANCH_TABLE, n, k);
            put(w, HEAD_BRANCHES, minus(n, 1));
        }
        Rows::Recut(k) => put(w, cut_at(k), other_cut(w, fault, k)),
        Rows::AsBefore => {
            copy_rows(w, ROWS_BEFORE, BRANCH_TABLE);
            put(w, HEAD_BRANCHES, get(w, COUNT_BEFORE));
        }
        Rows::Reordered(k) => put(w, order_at(k), other_order(w, fault, k)),
    }
}
