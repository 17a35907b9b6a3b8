// Faults in the lists of work orders: what another rule would give. What the lists gave is not read again, and so the fault is not taken out.
// Kept: the loops over bytes count an index, since `byte` and `put_byte` are defined at any index; over a slice they would first have to cut
// the list out of the table, and be no plainer.
use crate::faults::{add_byte, swap_byte};
use crate::rows::order_with_cut;
use crate::spots::Spot;
use trial_words::layout::{
    ASKED, ASKS, BLANK, BRANCH_TABLE, Bytes, COUNT_BEFORE, FAULT, HEAD_BRANCHES, Numbers, list_at,
};
use trial_words::rows::{holds, row_at};
use trial_words::words::{byte, get, minus, plus, put_byte};

// Two bytes of the area as they were, as a work order.
const UNTOUCHED: u32 = 42405;

// The first list that the fault can be in.
pub(crate) fn spot(w: &Numbers, b: &Bytes, fault: u32, sound: bool) -> Option<Spot> {
    (0..get(w, ASKED))
        .find(|k| suits(w, b, fault, *k, sound))
        .map(|k| Spot::List(k % 48))
}

// Whether the fault can be in the k-th list.
fn suits(w: &Numbers, b: &Bytes, fault: u32, k: u32, sound: bool) -> bool {
    let refusal = byte(b, plus(list_at(k), 72));
    match fault {
        97..=106 => sound && refusal == 0 && in_given(w, b, fault, k),
        107..=109 => sound && refusal == 14,
        110 => sound && refusal == 8,
        111 => sound && refusal == 9,
        // A list that the table checks refuse.
        112..=114 => !sound && matches!(refusal, 1..=3),
        _ => false,
    }
}

// How many orders a list has, and one of them.
fn count_of(b: &Bytes, k: u32) -> u32 {
    byte(b, plus(list_at(k), 74)) % 32
}

fn order_of(b: &Bytes, k: u32, i: u32) -> u32 {
    let at = plus(list_at(k), i % 32 * 2);
    byte(b, at) % 256 * 256 + byte(b, plus(at, 1)) % 256
}

// Whether a list that was given is another one with the fault.
fn in_given(w: &Numbers, b: &Bytes, fault: u32, k: u32) -> bool {
    let n = count_of(b, k);
    let first = order_of(b, k, 0);
    match fault {
        99 => first != order_of(b, k, minus(n, 1)),
        100 | 101 => n > 1,
        102 => first / 256 != first % 256,
        103 => first != UNTOUCHED,
        104 => lent_for(w, k) > plus(n, n),
        105 => get(w, HEAD_BRANCHES) < get(w, COUNT_BEFORE) && order_at_cut(w, k) != first,
        106 => first != 0 && n > 1,
        _ => true,
    }
}

// The moment of a list asked for.
fn moment_of(w: &Numbers, k: u32) -> u32 {
    get(w, ASKS + k % 48 * 2)
}

// The bytes lent for it.
fn lent_for(w: &Numbers, k: u32) -> u32 {
    get(w, ASKS + k % 48 * 2 + 1)
}

// The work order of the branch that holds a list's moment, if it had been taken over with the cut.
fn order_at_cut(w: &Numbers, k: u32) -> u32 {
    let moment = moment_of(w, k);
    let branch = (0..get(w, HEAD_BRANCHES))
        .find(|i| holds(w, row_at(BRANCH_TABLE, *i), moment))
        .unwrap_or(0);
    order_with_cut(w, branch)
}

// The fault is put into the k-th list.
pub(crate) fn shift(w: &Numbers, b: &mut Bytes, k: u32, put_in: bool) {
    if put_in {
        change(w, b, get(w, FAULT), k);
    }
}

// The k-th list as the fault has it.
fn change(w: &Numbers, b: &mut Bytes, fault: u32, k: u32) {
    let at = list_at(k);
    let n = count_of(b, k);
    match fault {
        97 | 110 | 112 => add_byte(b, plus(at, 72), 1),
        98 | 113 => add_byte(b, plus(at, 74), 1),
        99 => turn(b, at, n),
        100 => leave_out_last(b, at, n),
        101 => leave_out_first(b, at, n),
        102 => swap_byte(b, at, plus(at, 1)),
        103 => blank(b, at, plus(n, n)),
        104 => add_byte(b, plus(at, plus(n, n)), 1),
        105 => put_order(b, at, order_at_cut(w, k)),
        106 => put_order(b, at, 0),
        107 => give(b, at, minus(at, 80), lent_for(w, k)),
        108 => put_byte(b, plus(at, 74), count_of(b, minus(k, 1))),
        111 => put_byte(b, plus(at, 72), 0),
        _ => add_byte(b, at, 1),
    }
}

// A work order goes to its two bytes.
fn put_order(b: &mut Bytes, at: u32, order: u32) {
    put_byte(b, at, order / 256);
    put_byte(b, plus(at, 1), order);
}

// The list of n orders turned: the first row's comes first.
fn turn(b: &mut Bytes, at: u32, n: u32) {
    for i in 0..n / 2 {
        swap_orders(b, at, i, minus(n, plus(i, 1)));
    }
}

// Two work orders of a list in each other's place.
fn swap_orders(b: &mut Bytes, at: u32, i: u32, j: u32) {
    let first = plus(at, i % 32 * 2);
    let other = plus(at, j % 32 * 2);
    swap_byte(b, first, other);
    swap_byte(b, plus(first, 1), plus(other, 1));
}

// So many bytes are as they were before the turn.
fn blank(b: &mut Bytes, at: u32, n: u32) {
    for i in 0..n {
        put_byte(b, plus(at, i), BLANK);
    }
}

// One order less, the last, which is the first row's.
fn leave_out_last(b: &mut Bytes, at: u32, n: u32) {
    let less = minus(n, 1);
    blank(b, plus(at, less % 32 * 2), 2);
    put_byte(b, plus(at, 74), less);
}

// One order less, the first, which is that of the moment's own branch.
fn leave_out_first(b: &mut Bytes, at: u32, n: u32) {
    copy(b, plus(at, 2), at, minus(n, 1) % 32 * 2);
    leave_out_last(b, at, n);
}

// So many bytes from one index on become those from another on.
fn copy(b: &mut Bytes, from: u32, to: u32, n: u32) {
    for i in 0..n {
        let v = byte(b, plus(from, i));
        put_byte(b, plus(to, i), v);
    }
}

// A list that does not fit in n bytes is given, as far as it goes, as the one before it, which fits.
fn give(b: &mut Bytes, at: u32, other: u32, n: u32) {
    copy(b, other, at, n);
    copy(b, plus(other, 72), plus(at, 72), 3);
}
