// The work orders of the reference: of each moment its branch, and of each branch the one that it was cut from and its work order, as the
// requests made them. A mark or a revert adds the next moment; nothing else touches them. A list goes from the branch of a moment to the
// first, and leaves out the branches whose row is gone.
ghost use Rattle.std.specs.Prelude.{◌≡◌, ◌+◌, ◌%◌, ◌^◌, length, get_or, slice_index, slice_set};

use crate::refusals::number;
use crate::{index, read_reaches};
use trial_words::layout::{
    BASE, BRANCHES, LIST_COUNT, LIST_DUE, LIST_GONE, LIST_ORDERS, NOW, Numbers, ORDERS_TAKEN, ROWS,
    WAYS,
};
use trial_words::rows::row_at;
use trial_words::words::{add, get, number_at, plus, put, put_two};

fn way_at(i: u32) -> u32
    ensures { result ≡ 768 + i % 256 }
{
    WAYS + i % 256
}

fn way(w: &Numbers, i: u32) -> u32
    ensures { result ≡ get_or w.now (768 + i % 256) 0 }
{
    number_at(w, way_at(i))
}

// The branch of a snapshot, by the number of its first one.
fn branch_of(w: &Numbers, i: u32) -> u32 {
    way(w, i) % 256
}

// The branch that a branch was cut from, and its work order.
fn parent(w: &Numbers, branch: u32) -> u32 {
    way(w, branch) / 256 % 256
}

fn order_of(w: &Numbers, branch: u32) -> u32 {
    way(w, branch) / 65536
}

// A fresh store: the first snapshot is in the first branch, which has the work order 0.
pub(crate) fn begin(w: &mut Numbers)
    ensures { length w.new ≡ length w.old }
{
    put(w, WAYS, 0);
}

// The next snapshot is in the branch of the present one.
pub(crate) fn go_on(w: &mut Numbers) {
    let i = get(w, NOW);
    let branch = branch_of(w, i);
    put(w, way_at(plus(i, 1)), branch);
}

// The next snapshot begins a branch, cut from that of another snapshot.
pub(crate) fn branch_off(w: &mut Numbers, from: u32, order: u32) {
    let to = plus(get(w, NOW), 1) % 256;
    let other = branch_of(w, from) % 256;
    put(w, way_at(to), order % 65536 * 65536 + other * 256 + to);
    count(w, order);
}

// It is counted which work order was taken.
fn count(w: &mut Numbers, order: u32) {
    let kind: u32 = match order {
        0 => 0,
        1 => 1,
        255 => 2,
        256 => 3,
        65535 => 4,
        _ => 5,
    };
    add(w, plus(ORDERS_TAKEN, kind), 1);
}

// Whether the row of a branch is there; the first always is.
fn has_row(w: &Numbers, branch: u32) -> bool {
    let start = plus(get(w, BASE), branch);
    branch == 0 || (0..get(w, BRANCHES)).any(|k| get(w, row_at(ROWS, k)) == start)
}

// A work order goes behind the others of the list.
pub fn list_order(w: &mut Numbers, order: u32)
    ensures kept { length w.new ≡ length w.old }
    ensures listed { w.new ≡ slice_set (slice_set w.old (430 + slice_index w.old 429 % 16) order) 429 ((slice_index w.old 429 + 1) % 2 ^ 32) }
{
    let n = number_at(w, LIST_COUNT);
    w[(LIST_ORDERS + n % 16) as usize] = order;
    w[LIST_COUNT as usize] = plus(n, 1);
}

// A branch of the way is listed, or one row more is gone.
fn list_branch(w: &mut Numbers, branch: u32) {
    if has_row(w, branch) {
        list_order(w, order_of(w, branch));
    } else {
        add(w, LIST_GONE, 1);
    }
}

// The branches from one to the first, nearest first.
fn list_way(w: &mut Numbers, branch: u32) {
    let mut b = branch;
    for _ in 0..256u32 {
        list_branch(w, b);
        if b == 0 {
            return;
        }
        b = parent(w, b);
    }
}

// The list that is due at a moment, where it has the space: it reaches the moments that a read does. Answers its refusal.
pub fn expect(w: &mut Numbers, moment: u32) -> u32
    ensures { result ≡ get_or w.new 428 0 }
{
    let allowed = read_reaches(w, moment);
    put_two(w, LIST_DUE, number(allowed.err()), 0);
    put(w, LIST_GONE, 0);
    if allowed.is_ok() {
        list_way(w, branch_of(w, index(w, moment)));
    }
    number_at(w, LIST_DUE)
}
