// The lists of work orders against the reference: refusal, count, each byte of the list, and that the bytes past it are untouched.
ghost use Rattle.std.specs.Prelude.{◌≡◌, get_or};

use crate::checks;
use crate::judge::{count_unless, is_filled};
use crate::stop::Stop;
use trial_reference::orders::{expect, list_order};
use trial_reference::refusals::{Refusal, number};
use trial_words::layout::{
    ABSENT, ASKED, BLANK, Bytes, DESPITE_DISK, DUE, HEAD_BRANCHES, HEAD_FLOOR, HEAD_NAMES,
    HEAD_NOW, LIST_COUNT, LIST_DUE, LIST_GONE, LIST_ORDERS, LISTS_GIVEN, LISTS_REFUSED, NAME_TABLE,
    Numbers, SHORTER, WRONG, asked_at, list_at,
};
use trial_words::names::moment_of;
use trial_words::rows::holds;
use trial_words::rules::need;
use trial_words::words::{add, byte, get, minus, number_at, plus, put, put_two};

// The lists of a turn after a batch. Answers the differences in the list of requests so far.
pub fn judge(w: &mut Numbers, b: &Bytes) -> u32
    ensures { result ≡ get_or w.new 51 0 }
{
    for k in 0..get(w, ASKED) {
        expect_next(w, k, get(w, asked_at(k)));
        judge_list(w, b, k);
    }
    number_at(w, WRONG)
}

// Lists at the same moment stand together; what is due there is made out once.
fn expect_next(w: &mut Numbers, k: u32, moment: u32) {
    if k == 0 || get(w, asked_at(minus(k, 1))) != moment {
        expect(w, moment);
    }
}

// The lists on a changed store: refused as a batch is by the table checks, and else as its tables say. The live disk is not looked at.
// Answers the differences in the list of requests so far.
pub fn judge_changed(w: &mut Numbers, b: &Bytes) -> u32
    ensures { result ≡ get_or w.new 51 0 }
{
    let due = get(w, DUE);
    for k in 0..get(w, ASKED) {
        expect_changed(w, get(w, asked_at(k)), due);
        judge_list(w, b, k);
    }
    number_at(w, WRONG)
}

// What is due of a list at a moment, where a stop is due of the batch. It is counted where 18 does not keep the list back.
fn expect_changed(w: &mut Numbers, moment: u32, due: u32) {
    let despite_disk = due == Stop::Disk as u32;
    let refusal = if due == 0 || despite_disk {
        number(allowed(w, moment).err())
    } else {
        due
    };
    put_two(w, LIST_DUE, refusal, 0);
    put(w, LIST_GONE, 0);
    if refusal == 0 {
        walk(w, moment, get(w, HEAD_BRANCHES));
        add(w, DESPITE_DISK, u32::from(despite_disk));
    }
}

// Whether a list at a moment is allowed, by the head and the names lent.
fn allowed(w: &Numbers, moment: u32) -> Result<(), Refusal> {
    let above = moment >= get(w, HEAD_FLOOR);
    need(above || is_named(w, moment), Refusal::Below)?;
    need(moment <= get(w, HEAD_NOW), Refusal::Above)
}

// Whether a name that is lent names a moment.
fn is_named(w: &Numbers, moment: u32) -> bool {
    (0..get(w, HEAD_NAMES)).any(|k| moment_of(w, NAME_TABLE, k) == moment)
}

// The work orders by the branch rows lent: of the row that holds a moment, then of the row that holds its cut, and so on to the first.
fn walk(w: &mut Numbers, moment: u32, n: u32) {
    let mut m = moment;
    for _ in 0..n {
        let i = holder(w, m, n);
        list_order(w, checks::order_of(w, i));
        if i == 0 {
            return;
        }
        m = get(w, plus(checks::branch_row(i), 2));
    }
}

// The row of n that holds a moment.
fn holder(w: &Numbers, moment: u32, n: u32) -> u32 {
    (0..n)
        .find(|i| holds(w, checks::branch_row(*i), moment))
        .unwrap_or(0)
}

// The k-th list: 14 where the list that is due does not fit.
fn judge_list(w: &mut Numbers, b: &Bytes, k: u32) {
    let due = get(w, LIST_DUE);
    let count = get(w, LIST_COUNT);
    let fits = count % 65536 * 2 <= get(w, plus(asked_at(k), 1));
    if due != 0 {
        judge_refused(w, b, list_at(k), due);
    } else if fits {
        judge_given(w, b, list_at(k), count);
    } else {
        judge_refused(w, b, list_at(k), Stop::Space as u32);
    }
}

// A refused list: the count 0, and no byte written.
fn judge_refused(w: &mut Numbers, b: &Bytes, at: u32, refusal: u32) {
    add(w, LISTS_REFUSED + refusal % 16, 1);
    judge_report(w, b, at, refusal, 0);
    count_unless(w, is_filled(b, at, 48, BLANK));
}

// A list that is given: each work order in two bytes, the high one first, and no byte written past them.
fn judge_given(w: &mut Numbers, b: &Bytes, at: u32, count: u32) {
    count_given(w, count);
    judge_report(w, b, at, 0, count);
    count_unless(w, list_right(w, b, at, count));
    let length = count % 32 * 2;
    count_unless(w, is_filled(b, plus(at, length), minus(48, length), BLANK));
}

fn count_given(w: &mut Numbers, count: u32) {
    add(w, LISTS_GIVEN + count % 17, 1);
    let gone = get(w, LIST_GONE);
    add(w, SHORTER, u32::from(gone != 0));
    add(w, ABSENT, gone);
}

fn judge_report(w: &mut Numbers, b: &Bytes, at: u32, refusal: u32, count: u32) {
    count_unless(w, byte(b, plus(at, 72)) == refusal);
    count_unless(w, is_two(b, plus(at, 73), count));
}

// Whether n work orders are those due.
fn list_right(w: &Numbers, b: &Bytes, at: u32, n: u32) -> bool {
    (0..n).all(|k| is_two(b, plus(at, k % 32 * 2), get(w, LIST_ORDERS + k % 16)))
}

// Whether a number stands in two bytes.
fn is_two(b: &Bytes, at: u32, number: u32) -> bool {
    byte(b, at) == number / 256 && byte(b, plus(at, 1)) == number % 256
}
