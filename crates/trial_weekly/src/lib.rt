// An operator who sets back weekly into the branch of the week before, for a hundred years, with a reclaim every four weeks.
// The week k begins at the moment 2k. A page is written in seven weeks of eight; then a mark, another page for a trial, and a revert to 2k,
// with a work order of its own.
#![tactic(auto)]

pub mod ways;

ghost use Rattle.std.specs.Prelude.{◌≡◌, get_or};

use trial_calls::calls;
use trial_calls::lent::Tables;
use trial_judge::judge;
use trial_lists::{encoding, lists};
use trial_words::layout::{
    ANSWERS, AREA, BEHIND, BRANCH_LENGTH, Bytes, COUNT, CUT, DISK_LENGTH, HEAD_BRANCHES,
    HEAD_RECORDS, LARGEST, LIST_COUNT, LISTED, LONGEST, NAME_NUMBERS, Numbers, PAGE_ANSWER, READ,
    ROWS_DUE, ROWS_READ, SEEN, SENT, SIZE, SLAB_LENGTH, STOP, WRONG,
};
use trial_words::request::{plain, put_request};
use trial_words::words::{add, byte, get, minus, number_at, plus, put, put_four, put_two};

// A hundred years, and the branch rows.
pub const WEEKS: u32 = 5218;

pub const BRANCH_ROWS: u32 = 4096;

// What is lent to the store: 4096 branch rows, 512 record rows and places.
type Store = Tables<16384, 1536, 512, 96, 131072>;

// Room for 128 work orders.
type List = [u8; 256];

// Eight pages, 4096 branch rows, 512 record rows and places.
fn set_sizes(w: &mut Numbers) {
    put_four(w, SIZE, 8, BRANCH_ROWS, 512, 512);
    put_four(w, BRANCH_LENGTH, 16384, 1536, 512, NAME_NUMBERS);
    put(w, SLAB_LENGTH, 131072);
    put_two(w, DISK_LENGTH, 2048, 8);
}

// All weeks on a fresh store, each reclaim to so many weeks before. Answers the largest count of branches.
pub fn run(w: &mut Numbers, behind: u32) -> u32
    ensures { result ≡ get_or w.new 77 0 }
{
    let mut store = Store::blank();
    set_sizes(w);
    put(w, BEHIND, behind);
    let (lent, slab) = store.lent(w);
    calls::make_over(w, lent, slab);
    all_weeks(w, &mut store);
    number_at(w, LARGEST)
}

// The weeks, one after another.
fn all_weeks(w: &mut Numbers, store: &mut Store) {
    let mut b: Bytes = [0; 12288];
    for k in 0..WEEKS {
        week(w, &mut b, store, k);
    }
}

// A week's requests, and every four weeks a reclaim.
fn week(w: &mut Numbers, b: &mut Bytes, store: &mut Store, k: u32) {
    list_week(w, k);
    hand_in(w, b, store);
    let behind = get(w, BEHIND);
    if k % 4 == 3 && k >= behind {
        month(w, b, store, k, k - behind);
    }
}

// A reclaim to the beginning of an earlier week; then what is read there and now is compared, and the lists of work orders.
fn month(w: &mut Numbers, b: &mut Bytes, store: &mut Store, k: u32, earlier: u32) {
    let then = begins(earlier);
    let now = begins(plus(k, 1));
    put_request(w, 0, plain(5, 0, then, 0));
    list(w, 1);
    hand_in(w, b, store);
    read_back(w, b, store, earlier, then);
    read_back(w, b, store, k, now);
    judge_list(w, store, then);
    judge_list(w, store, now);
}

// Every page is read at a moment that has the pages of a week.
fn read_back(w: &mut Numbers, b: &mut Bytes, store: &mut Store, week: u32, moment: u32) {
    lists::list_reads(w, moment);
    hand_in(w, b, store);
    judge_reads(w, b, week, moment);
}

// The list of work orders at a moment. Each branch of the run is cut from the one before it: on the way are all that have begun by then.
fn judge_list(w: &mut Numbers, store: &Store, moment: u32) {
    let mut list: List = [0; 256];
    let shown = store.shown(w);
    calls::list_over(w, shown, moment, &mut list);
    let rows = begun(store, get(w, HEAD_BRANCHES), moment);
    put(w, COUNT, rows);
    same(w, LIST_COUNT, COUNT);
    judge_orders(w, store, &list, rows);
    add(w, LISTED, 1);
    raise(w, LONGEST, rows);
}

// The moment that the k-th branch starts at.
fn start_of(store: &Store, k: u32) -> u32 {
    let i = (k % 4096 * 4) as usize;
    store.branches[i]
}

// How many of n branches have begun by a moment.
fn begun(store: &Store, n: u32, moment: u32) -> u32 {
    let rows = (0..n).filter(|k| start_of(store, *k) <= moment).count();
    (rows % 4294967296) as u32
}

// The work orders of a list, from the newest of so many branches to the first.
fn judge_orders(w: &mut Numbers, store: &Store, list: &List, rows: u32) {
    for (k, order) in (0..rows).rev().zip(list.chunks(2)) {
        if order_in(order) != order_due(start_of(store, k)) {
            add(w, WRONG, 1);
        }
    }
}

// The work order in two bytes.
fn order_in(bytes: &[u8]) -> u32 {
    match bytes {
        [high, low] => u32::from(u16::from_be_bytes([*high, *low])),
        _ => 0,
    }
}

// The work order of the branch that starts at a moment.
fn order_due(start: u32) -> u32 {
    if start == 0 {
        0
    } else {
        work_order(minus(start / 2, 1))
    }
}

// The moment that a week begins with.
fn begins(k: u32) -> u32 {
    k % 65536 * 2
}

// The work order of a week's revert: another for each.
fn work_order(k: u32) -> u32 {
    (k % 65536 * 40503 + 7) % 65536
}

// The week's page is the one of its number; the eighth page is written every ten years or so.
fn writes(k: u32) -> bool {
    k % 8 != 7 || k % 512 == 7
}

// The requests of a week; one is written before the mark, or none.
fn list_week(w: &mut Numbers, k: u32) {
    let n = u32::from(writes(k));
    put_request(w, 0, plain(1, k % 8, 0, k % 256));
    put_request(w, n, plain(2, 0, 0, 0));
    put_request(w, plus(n, 1), plain(1, plus(k, 1) % 8, 0, 255));
    put_request(w, plus(n, 2), plain(3, work_order(k), begins(k), 0));
    list(w, plus(n, 3));
}

// The next batch has so many requests, and room for an answer to each.
fn list(w: &mut Numbers, n: u32) {
    put(w, COUNT, n);
    put(w, AREA, n % 16 * PAGE_ANSWER);
    put(w, CUT, 0);
}

// A batch of the requests listed, which answers each and reads every record row; its refusals and the branches are counted.
fn hand_in(w: &mut Numbers, b: &mut Bytes, store: &mut Store) {
    encoding::encode(w, b);
    put(w, ROWS_DUE, get(w, HEAD_RECORDS));
    let (lent, slab) = store.lent(w);
    calls::ask_over(w, b, lent, slab);
    count_answers(w, b, get(w, plus(STOP, 1)));
    raise(w, LARGEST, get(w, HEAD_BRANCHES));
    same(w, plus(STOP, 1), COUNT);
    same(w, ROWS_READ, ROWS_DUE);
}

// One difference more where two numbers differ.
fn same(w: &mut Numbers, i: u32, j: u32) {
    if get(w, i) != get(w, j) {
        add(w, WRONG, 1);
    }
}

// The number at an index becomes another one where that is larger.
fn raise(w: &mut Numbers, i: u32, n: u32) {
    let so_far = get(w, i);
    put(w, i, so_far.max(n));
}

// The refusals of n answers are counted.
fn count_answers(w: &mut Numbers, b: &Bytes, n: u32) {
    put(w, SENT, 0);
    for _ in 0..n {
        count_answer(w, b, get(w, SENT));
    }
}

// The refusal of an answer is counted; the next answer stands behind it.
fn count_answer(w: &mut Numbers, b: &Bytes, sent: u32) {
    let first = byte(b, plus(ANSWERS, sent));
    add(w, plus(SEEN, first / 4 % 32), 1);
    add(w, SENT, if first == 2 { PAGE_ANSWER } else { 5 });
}

// Every page read at a moment that has the pages of a week.
fn judge_reads(w: &mut Numbers, b: &Bytes, week: u32, moment: u32) {
    put(w, SENT, 0);
    for a in 0..8u32 {
        judge_page(w, b, written(a, week), moment);
    }
}

// The last week up to a week that wrote a page.
fn written(a: u32, week: u32) -> Option<u32> {
    (0..plus(week, 1)).rev().find(|k| k % 8 == a && writes(*k))
}

// A page read, which a week wrote last, or none.
fn judge_page(w: &mut Numbers, b: &Bytes, last: Option<u32>, moment: u32) {
    let at = plus(ANSWERS, get(w, SENT));
    let (date, page, sent) = match last {
        Some(k) => (begins(k), k % 256 + 1, PAGE_ANSWER),
        None => (0, 0, 5),
    };
    judge::judge_read(w, b, at, moment, date, page);
    add(w, SENT, sent);
    add(w, READ, 1);
}
