// The branch rows of the reference, as document 02 has them: a revert's work order goes into the row that it makes; a reclaim takes out one
// row after another, and each child takes over its cut and keeps its own work order.
ghost use Rattle.std.specs.Prelude.{◌≡◌, length};

use crate::{floor, index, names};
use trial_words::layout::{
    BRANCHES, FOR_NAME, FOR_RECORD, LAST, NAMES, Numbers, ROWS, TAKEN_OVER, WENT, held_at,
};
use trial_words::rows::{Row, holds, put_row, remove, row_at};
use trial_words::words::{add, get, minus, plus, put};

// A fresh store: one open branch.
pub(crate) fn begin(w: &mut Numbers)
    ensures { length w.new ≡ length w.old }
{
    for k in 0..21u32 {
        put_row(w, row_at(ROWS, k), Row::default());
    }
    put(w, ROWS + 1, LAST);
    put(w, BRANCHES, 1);
}

// The last branch ends with the moment sealed; a new one is open from the next on, cut at a moment, with a work order.
pub(crate) fn make(w: &mut Numbers, sealed: u32, cut: u32, order: u32) {
    let n = get(w, BRANCHES);
    let last = row_at(ROWS, minus(n, 1));
    put(w, plus(last, 1), sealed);
    let row = Row {
        start: plus(sealed, 1),
        end: LAST,
        cut,
        order,
    };
    put_row(w, row_at(ROWS, n), row);
    put(w, BRANCHES, plus(n, 1));
}

// After a reclaim the rows that need not stay go, the newest first.
pub(crate) fn settle(w: &mut Numbers, n: u32) {
    for k in (0..n).rev() {
        settle_row(w, k);
    }
}

fn settle_row(w: &mut Numbers, k: u32) {
    if !stays(w, row_at(ROWS, k)) {
        take_out(w, k, get(w, BRANCHES));
    }
}

fn take_out(w: &mut Numbers, k: u32, n: u32) {
    let children = remove(w, ROWS, n, k);
    put(w, BRANCHES, minus(n, 1));
    add(w, WENT, 1);
    add(w, TAKEN_OVER, children);
}

// The first row stays; one that ends at or above the floor; one that holds a named moment; one that holds a held pair.
fn stays(w: &mut Numbers, row: u32) -> bool {
    get(w, row) == 0 || get(w, plus(row, 1)) >= floor(w) || stays_for_few(w, row)
}

// It is counted where a row stays for a named moment or for a held pair only.
fn stays_for_few(w: &mut Numbers, row: u32) -> bool {
    if holds_named(w, row) {
        add(w, FOR_NAME, 1);
        return true;
    }
    let start = index(w, get(w, row));
    let end = index(w, get(w, plus(row, 1)));
    let holds_pair = (start..plus(end, 1)).any(|i| holds_at(w, i));
    add(w, FOR_RECORD, u32::from(holds_pair));
    holds_pair
}

// Whether a row holds a named moment.
fn holds_named(w: &Numbers, row: u32) -> bool {
    (0..get(w, NAMES)).any(|k| holds(w, row, names::moment_of(w, k)))
}

// Whether a pair of a moment is held.
fn holds_at(w: &Numbers, i: u32) -> bool {
    (0..4u32).any(|a| get(w, held_at(i, a)) != 0)
}
