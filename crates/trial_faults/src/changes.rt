// Changes of a store before a batch: of one number of the head, of the lengths lent, of a table, or a mark; or two records in each other's
// row. With every fifth change a mark is wrong besides, which is to be refused only where nothing else is.
// Kept: the changes are numbers, as the table of numbers holds them (CHANGE) and the run counts through them.
ghost use Rattle.std.specs.Prelude.{◌≡◌, get_or};

use crate::faults::swap_rows;
use trial_words::layout::{
    BRANCH_LENGTH, BRANCH_ROWS, BRANCH_TABLE, CHANGE, CHANGES, DISK_LENGTH, HEAD, HEAD_NOW, LAST,
    MARK_LENGTH, MARK_TABLE, NAME_LENGTH, NAME_TABLE, Numbers, PLACE_LENGTH, PLACE_ROWS,
    PLACE_TABLE, RECORD_LENGTH, RECORD_ROWS, RECORD_TABLE, REPLACED, SIZE, SLAB_LENGTH, record_row,
};
use trial_words::words::{add, get, minus, number_at, plus, put};

fn branch_numbers(w: &Numbers) -> u32 {
    get(w, BRANCH_ROWS) % 4096 * 4
}

fn record_numbers(w: &Numbers) -> u32 {
    get(w, RECORD_ROWS) % 4096 * 3
}

// The numbers of the first three name rows.
const FIRST_NAMES: u32 = 9;

// Each of the numbers takes eight values. The last are the two lengths of the live disk, and its marks.
fn replacements(w: &Numbers) -> u32 {
    let rows = plus(branch_numbers(w), record_numbers(w));
    let disk = plus(get(w, SIZE), 2);
    plus(11 + FIRST_NAMES, plus(plus(rows, get(w, PLACE_ROWS)), disk)) % 65536 * 8
}

// Each record changes rows with the next in two ways.
fn swaps(w: &Numbers) -> u32 {
    minus(get(w, RECORD_ROWS), 1) % 65536 * 2
}

// How many changes the family tries.
pub fn count(w: &Numbers) -> u32
    ensures { get_or w.now 57 0 ≡ 0 → result ≡ 0 }
{
    if number_at(w, CHANGES) == 0 {
        0
    } else {
        plus(replacements(w), swaps(w))
    }
}

// Where the c-th number stands: six of the head, five lengths, then the name rows, the other tables and the live disk.
fn place_of(w: &Numbers, c: u32) -> u32 {
    match c {
        0..=5 => HEAD + c,
        6..=10 => BRANCH_LENGTH + (c - 6),
        11..=19 => NAME_TABLE + (c - 11),
        _ => table_place(
            c - (11 + FIRST_NAMES),
            branch_numbers(w),
            record_numbers(w),
            get(w, PLACE_ROWS),
        ),
    }
}

fn table_place(i: u32, branches: u32, records: u32, places: u32) -> u32 {
    if i < branches {
        return plus(BRANCH_TABLE, i);
    }
    let k = i - branches;
    if k < records {
        return plus(RECORD_TABLE, k);
    }
    let p = k - records;
    if p < places {
        plus(PLACE_TABLE, p)
    } else {
        disk_place(p - places)
    }
}

fn disk_place(i: u32) -> u32 {
    if i < 2 {
        DISK_LENGTH + i
    } else {
        plus(MARK_TABLE, i - 2)
    }
}

fn value(now: u32, old: u32, row: u32, v: u32) -> u32 {
    match v {
        0 => plus(old, 1),
        1 => minus(old, 1),
        2 => 0,
        3 => 1,
        4 => plus(old, row),
        5 => now,
        6 => plus(now, 1),
        _ => LAST,
    }
}

// Whether the number at a place is a work order.
fn is_order(at: u32) -> bool {
    (BRANCH_TABLE..PLACE_TABLE).contains(&at) && at % 4 == 3
}

// A work order takes 65,535 in place of now, and 65,536 in place of now+1. The length of the branch rows takes a row of four numbers more,
// any other number three more.
fn new_value(w: &Numbers, at: u32, old: u32, v: u32) -> u32 {
    let now: u32 = if is_order(at) {
        65535
    } else {
        get(w, HEAD_NOW)
    };
    let row: u32 = if at == BRANCH_LENGTH { 4 } else { 3 };
    value(now, old, row, v)
}

// A length is at most that of what can be lent, and a mark is half a byte's range, so that 128 can be added.
fn limited(at: u32, n: u32) -> u32 {
    match at {
        BRANCH_LENGTH => n % 85,
        RECORD_LENGTH | PLACE_LENGTH => n % 65,
        NAME_LENGTH => n % 100,
        SLAB_LENGTH => n % 4353,
        DISK_LENGTH => n % 1281,
        MARK_LENGTH => n % 9,
        500..=507 => n % 128,
        _ => n,
    }
}

fn replace(w: &mut Numbers, change: u32) {
    let at = place_of(w, change / 8);
    let old = get(w, at);
    let new = new_value(w, at, old, change % 8);
    put(w, REPLACED, old);
    put(w, at, limited(at, new));
}

fn put_back(w: &mut Numbers, change: u32) {
    let at = place_of(w, change / 8);
    let old = get(w, REPLACED);
    put(w, at, old);
}

// Two records that stand together change rows; every second time each leaves its place behind, so that only their order is wrong.
fn swap_records(w: &mut Numbers, change: u32) {
    swap_rows(w, record_row(change / 2), 3 - change % 2);
}

// With every fifth change the last mark is more, or as it was again.
fn spoil_mark(w: &mut Numbers, change: u32, by: u32) {
    if change % 5 == 4 {
        let last = minus(get(w, SIZE), 1);
        add(w, plus(MARK_TABLE, last), by);
    }
}

// The present change is made. Answers the number that was replaced last.
pub fn make(w: &mut Numbers) -> u32
    ensures { result ≡ get_or w.new 58 0 }
{
    let change = get(w, CHANGE);
    let first = replacements(w);
    if change < first {
        replace(w, change);
    } else {
        swap_records(w, change - first);
    }
    spoil_mark(w, change, 128);
    number_at(w, REPLACED)
}

// The present change is undone. Answers the number that was replaced last.
pub fn undo(w: &mut Numbers) -> u32
    ensures { result ≡ get_or w.old 58 0 }
{
    let old = number_at(w, REPLACED);
    let change = get(w, CHANGE);
    let first = replacements(w);
    spoil_mark(w, change, minus(0, 128));
    if change < first {
        put_back(w, change);
    } else {
        swap_records(w, change - first);
    }
    old
}
