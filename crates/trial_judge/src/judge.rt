// What a batch reported, and each byte of its answers, against what the reference expects.
ghost use Rattle.std.specs.Prelude.{◌≡◌, get_or};

use crate::checks;
use crate::live::disk_right;
use crate::stop::Stop;
use trial_reference::DatedPage;
use trial_reference::refusals::number;
use trial_words::layout::{
    ANSWERED, ANSWERS, AREA, BLANK, BRANCH_LENGTH, BRANCH_TABLE, BRANCHES, BROKEN, BROKEN_BEHIND,
    Bytes, COUNT, DUE, HEAD, HEAD_DUE, HEAD_RECORDS, HELD, INPUT, LAST, NAME_LENGTH, NAME_NUMBERS,
    NAME_ROWS, NAME_TABLE, NAMES, Numbers, ORDER_PAST, ORDER_REFUSED, PAGE_ANSWER, PLACE_LENGTH,
    PLACE_TABLE, RECORD_LENGTH, RECORD_TABLE, ROWS, ROWS_DUE, ROWS_READ, RUNNING, SEEN, SENT, SIZE,
    SLAB, STOP, TAKEN, TOUCHED, UNREAD, WRONG, record_row,
};
use trial_words::request::{Operation, Request, bytes_of, listed};
use trial_words::rules::need;
use trial_words::words::{add, byte, get, minus, number_at, part, plus, put, put_four, put_two};

// One difference more where something is not right.
pub(crate) fn count_unless(w: &mut Numbers, right: bool) {
    add(w, WRONG, u32::from(!right));
}

// An answer that is due: its refusal, its number, and its page.
#[derive(Clone, Copy)]
struct Answer {
    refusal: u32,
    number: u32,
    page: Option<DatedPage>,
}

// Nothing that an operation does not use is set, nor the spare bits.
fn spare_clear(r: Request, operation: Operation) -> bool {
    r.spare == 0
        && match operation {
            Operation::Write => r.moment == 0,
            Operation::Revert | Operation::Read => true,
            Operation::Mark | Operation::WithdrawName => r.address == 0 && r.moment == 0,
            Operation::Reclaim | Operation::GiveName => r.address == 0,
        }
}

// Whether a request can be read of which so many bytes are left, else with what the batch stops before it.
fn readable(left: u32, r: Request) -> Result<(), Stop> {
    need(left >= 7, Stop::Short)?;
    let Ok(operation) = Operation::try_from(r.operation) else {
        return Err(Stop::Operation);
    };
    need(spare_clear(r, operation), Stop::Spare)?;
    need(left >= bytes_of(r), Stop::Short)
}

// The answers of a whole batch: each request in order until one stops it. Answers the differences in the list so far.
pub fn judge(w: &mut Numbers, b: &Bytes) -> u32
    ensures { result ≡ get_or w.new 51 0 }
{
    put_two(w, DUE, RUNNING, 0);
    put_two(w, TAKEN, 0, 0);
    put(w, ROWS_DUE, get(w, HELD));
    trial_reference::places::begin_batch(w);
    for k in 0..get(w, COUNT) {
        judge_next(w, b, k);
    }
    if get(w, DUE) == RUNNING {
        put(w, DUE, 0);
    }
    judge_report(w, b);
    number_at(w, WRONG)
}

// The k-th request, where the batch has not stopped before it. A batch whose bytes end before it has no stop number.
fn judge_next(w: &mut Numbers, b: &Bytes, k: u32) {
    if get(w, DUE) != RUNNING {
        return;
    }
    let left = minus(get(w, INPUT), get(w, TAKEN));
    let r = listed(w, k);
    if left == 0 {
        put(w, DUE, 0);
    } else {
        match readable(left, r) {
            Ok(()) => judge_answer(w, b, r),
            Err(stop) => put(w, DUE, stop as u32),
        }
    }
}

// One answer: its refusal, and the page due, with its date; 14 where it does not fit.
fn judge_answer(w: &mut Numbers, b: &Bytes, r: Request) {
    let refusal = trial_reference::refusal(w, r);
    let page = match refusal {
        Some(_) => None,
        None => trial_reference::page(w, r),
    };
    let size = if page.is_some() { PAGE_ANSWER } else { 5 };
    if minus(get(w, AREA), get(w, SENT)) < size {
        put(w, DUE, Stop::Space as u32);
    } else {
        judge_bytes(w, b, r, number(refusal), page);
        count_answer(w, number(refusal), bytes_of(r), size);
    }
}

// The reference is fed where the store's answer is no refusal; then refusal, number, date and page are compared.
fn judge_bytes(w: &mut Numbers, b: &Bytes, r: Request, refusal: u32, page: Option<DatedPage>) {
    let at = plus(ANSWERS, get(w, SENT));
    let number = if byte(b, at) / 4 == 0 {
        trial_reference::feed(w, r)
    } else {
        0
    };
    let due = Answer {
        refusal,
        number,
        page,
    };
    compare(w, b, at, due);
}

// It is counted which refusal was due, and what the answer takes and sends.
fn count_answer(w: &mut Numbers, refusal: u32, taken: u32, sent: u32) {
    add(w, plus(SEEN, refusal % 32), 1);
    add(w, ANSWERED, 1);
    add(w, TAKEN, taken);
    add(w, SENT, sent);
}

// The five bytes of an answer, and those behind them where a page is due.
fn compare(w: &mut Numbers, b: &Bytes, at: u32, due: Answer) {
    let flags = due.refusal % 64 * 4 + u32::from(due.page.is_some()) * 2;
    count_unless(
        w,
        byte(b, at) == flags && is_number(b, plus(at, 1), due.number),
    );
    if let Some(page) = due.page {
        count_unless(
            w,
            is_number(b, plus(at, 5), page.date) && is_filled(b, plus(at, 9), 256, page.byte),
        );
    }
}

// Whether a number stands in four bytes, the high one first.
fn is_number(b: &Bytes, at: u32, number: u32) -> bool {
    part(b, at, 4) == number.to_be_bytes().as_slice()
}

// Whether n bytes from an index on are all the same.
pub(crate) fn is_filled(b: &Bytes, at: u32, n: u32, byte: u32) -> bool {
    part(b, at, n)
        .iter()
        .filter(|x| u32::from(**x) == byte)
        .count()
        == n as usize
}

// The answer to a read, by itself: its moment, and the page due with its date. Answers the differences in the list so far.
// Kept: the page as one more than its byte, or 0, which callers pass.
pub fn judge_read(w: &mut Numbers, b: &Bytes, at: u32, moment: u32, date: u32, page: u32) -> u32
    ensures { result ≡ get_or w.new 51 0 }
{
    let due = Answer {
        refusal: 0,
        number: moment,
        page: page.checked_sub(1).map(|byte| DatedPage { date, byte }),
    };
    compare(w, b, at, due);
    number_at(w, WRONG)
}

// The stop number, the three counts of the requests and the record rows read; the answer area past the answers is untouched.
fn judge_report(w: &mut Numbers, b: &Bytes) {
    add(w, plus(SEEN, get(w, DUE) % 32), 1);
    count_unless(w, same_numbers(w, STOP, DUE, 4));
    count_unless(w, get(w, ROWS_READ) == get(w, ROWS_DUE));
    let sent = get(w, SENT);
    let rest = minus(get(w, AREA), sent);
    count_unless(w, is_filled(b, plus(ANSWERS, sent), rest, BLANK));
}

// Whether n numbers from one index on are those from another index on.
fn same_numbers(w: &Numbers, i: u32, j: u32, n: u32) -> bool {
    part(w, i, n) == part(w, j, n)
}

// The store after a batch: its head, its branch rows, its names, its records, its live disk, and that the next batch will find its tables
// sound. Answers the differences in the list so far.
pub fn judge_store(w: &mut Numbers, b: &Bytes) -> u32
    ensures { result ≡ get_or w.new 51 0 }
{
    expect_head(w);
    count_unless(w, same_numbers(w, HEAD, HEAD_DUE, 6));
    count_unless(
        w,
        same_numbers(w, BRANCH_TABLE, ROWS, get(w, BRANCH_LENGTH)),
    );
    count_unless(w, same_numbers(w, NAME_TABLE, NAME_ROWS, NAME_NUMBERS));
    count_unless(w, (0..get(w, HELD)).all(|k| record_right(w, b, k)));
    count_unless(w, disk_right(w, b));
    count_unless(w, checks::sound(w).is_ok());
    number_at(w, WRONG)
}

// The head due: size, branches, records, now, floor, names.
fn expect_head(w: &mut Numbers) {
    put_two(w, HEAD_DUE, get(w, SIZE), get(w, BRANCHES));
    put_two(w, HEAD_DUE + 2, get(w, HELD), trial_reference::now(w));
    put_two(w, HEAD_DUE + 4, trial_reference::floor(w), get(w, NAMES));
}

// Whether a record is a held pair, in the pair's place, with its page's bytes there. That each is there once and in the volume's range is
// what the table checks say.
fn record_right(w: &Numbers, b: &Bytes, k: u32) -> bool {
    let at = record_row(k);
    let i = trial_reference::index(w, get(w, plus(at, 1)));
    let place = get(w, plus(at, 2));
    trial_reference::held(w, i, get(w, at)).is_some_and(|pair| {
        place == pair.place && is_filled(b, plus(SLAB, place % 65536 * 256), 256, pair.byte)
    })
}

// What is due of a batch on a changed store: the stop that the table checks give, and the record rows that they read. Where they give
// none, nothing is handed in. Answers the stop.
pub fn expect_stop(w: &mut Numbers) -> u32
    ensures { result ≡ get_or w.new 32 0 }
{
    let sound = checks::sound(w);
    let stop = match sound {
        Ok(()) => 0,
        Err(stop) => stop as u32,
    };
    put_four(w, DUE, stop, 0, 0, 0);
    expect_rows(w, sound);
    count_orders(w, sound);
    if sound.is_ok() {
        put(w, INPUT, 0);
    }
    keep_head(w);
    number_at(w, DUE)
}

fn expect_rows(w: &mut Numbers, sound: Result<(), Stop>) {
    let rows = checks::rows_read(w, sound);
    put(w, ROWS_DUE, rows);
    match sound {
        Err(Stop::Records) => count_broken(w, rows),
        Err(Stop::Rows) => add(w, UNREAD, u32::from(get(w, HEAD_RECORDS) != 0)),
        _ => {}
    }
}

// It is counted which rule the last record row read breaks, and where one behind it breaks a rule too.
fn count_broken(w: &mut Numbers, rows: u32) {
    let rule = checks::last_broken(w, rows).map_or(8, |rule| rule as u32);
    add(w, BROKEN + rule, 1);
    add(w, BROKEN_BEHIND, u32::from(checks::broken_behind(w, rows)));
}

// It is counted where a work order is what 2 refuses, and where one that would be refused stands past the count.
fn count_orders(w: &mut Numbers, sound: Result<(), Stop>) {
    if sound == Err(Stop::Rows) && checks::only_orders_wrong(w) {
        add(w, ORDER_REFUSED + u32::from(checks::order_right(w, 0)), 1);
    }
    if sound.is_ok() {
        add(w, ORDER_PAST, u32::from(checks::order_past(w)));
    }
}

fn keep_head(w: &mut Numbers) {
    for k in 0..6u32 {
        put(w, HEAD_DUE + k, get(w, HEAD + k));
    }
}

// The batch on a changed store stopped as is due, and changed nothing. Answers the differences in the list so far.
pub fn judge_stop(w: &mut Numbers, b: &Bytes) -> u32
    ensures { result ≡ get_or w.new 51 0 }
{
    judge_report(w, b);
    count_unless(w, same_numbers(w, HEAD, HEAD_DUE, 6));
    count_unless(w, is_untouched(w));
    number_at(w, WRONG)
}

// Whether the batch changed nothing of the tables, of the slab, and of the live disk and its marks.
fn is_untouched(w: &Numbers) -> bool {
    part(w, TOUCHED, 6).iter().all(|n| *n == 0)
}

// A fresh store: no refusal, its head, and all rows zero but for the end of the first branch. Answers the differences in the list so far.
pub fn judge_fresh(w: &mut Numbers) -> u32
    ensures { result ≡ get_or w.new 51 0 }
{
    count_unless(w, get(w, STOP) == 0);
    put_four(w, HEAD_DUE, get(w, SIZE), 1, 0, 0);
    put_two(w, HEAD_DUE + 4, 0, 0);
    count_unless(w, same_numbers(w, HEAD, HEAD_DUE, 6));
    count_unless(w, get(w, BRANCH_TABLE + 1) == LAST);
    for (table, length, used) in [
        (BRANCH_TABLE, BRANCH_LENGTH, 1),
        (RECORD_TABLE, RECORD_LENGTH, 0),
        (PLACE_TABLE, PLACE_LENGTH, 0),
        (NAME_TABLE, NAME_LENGTH, 0),
    ] {
        count_unless(w, checks::in_use(w, table, get(w, length)) == used);
    }
    number_at(w, WRONG)
}
