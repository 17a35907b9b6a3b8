// Branch rows in the table of numbers, 21 from an index on: of each its start, its end, its cut and its work order. Behind the
// last they are zero.
ghost use Rattle.std.specs.Prelude.{◌≡◌, ◌+◌, ◌*◌, ◌%◌, ◌^◌, ◌<◌, false, length, slice_index};

use crate::layout::Numbers;
use crate::words::{get, minus, plus, put, put_four};

// A branch row.
#[derive(Clone, Copy, PartialEq, Eq, Default)]
pub struct Row {
    pub start: u32,
    pub end: u32,
    pub cut: u32,
    pub order: u32,
}

// The k-th row of those at an index.
pub fn row_at(at: u32, k: u32) -> u32
    ensures { result ≡ (at + k % 21 * 4) % 2 ^ 32 }
{
    plus(at, k % 21 * 4)
}

// The row at an index.
pub fn get_row(w: &Numbers, at: u32) -> Row
    ensures { at + 3 < 5632 → result ≡ record { start = slice_index w.now at; end = slice_index w.now (at + 1); cut = slice_index w.now (at + 2); order = slice_index w.now (at + 3) } }
{
    Row {
        start: get(w, at),
        end: get(w, plus(at, 1)),
        cut: get(w, plus(at, 2)),
        order: get(w, plus(at, 3)),
    }
}

// A row goes to an index.
pub fn put_row(w: &mut Numbers, at: u32, row: Row)
    ensures { length w.new ≡ length w.old }
{
    put_four(w, at, row.start, row.end, row.cut, row.order);
}

// Whether a row holds a moment.
pub fn holds(w: &Numbers, row: u32, moment: u32) -> bool
    ensures { row < 5632 → moment < slice_index w.now row → result ≡ false }
{
    get(w, row) <= moment && moment <= get(w, plus(row, 1))
}

// All rows at an index become those at another.
pub fn copy_rows(w: &mut Numbers, from: u32, to: u32)
    ensures { length w.new ≡ length w.old }
{
    for k in 0..21u32 {
        put_row(w, row_at(to, k), get_row(w, row_at(from, k)));
    }
}

// A child of a row takes over its cut, and keeps its own work order. Answers whether it is one.
fn hand_down(w: &mut Numbers, row: u32, child: u32) -> bool
    ensures { length w.new ≡ length w.old }
{
    let is_child = holds(w, row, get(w, plus(child, 2)));
    if is_child {
        put(w, plus(child, 2), get(w, plus(row, 2)));
    }
    is_child
}

// Each child of a row among n takes over its cut. Answers how many it has.
fn hand_down_all(w: &mut Numbers, at: u32, n: u32, row: u32) -> u32
    ensures { length w.new ≡ length w.old }
{
    let mut children: u32 = 0;
    for j in 0..n {
        if hand_down(w, row, row_at(at, j)) {
            children += 1;
        }
    }
    children
}

// The rows from one on become those behind them, up to the last.
fn close_up(w: &mut Numbers, at: u32, from: u32, last: u32)
    ensures { length w.new ≡ length w.old }
{
    for k in from..last {
        put_row(w, row_at(at, k), get_row(w, row_at(at, k + 1)));
    }
}

// The k-th of n rows goes: each child takes over its cut, and the rows behind it move up. Answers how many children it had.
pub fn remove(w: &mut Numbers, at: u32, n: u32, k: u32) -> u32
    ensures { length w.new ≡ length w.old }
{
    let children = hand_down_all(w, at, n, row_at(at, k));
    let last = minus(n, 1);
    close_up(w, at, k, last);
    put_row(w, row_at(at, last), Row::default());
    children
}
