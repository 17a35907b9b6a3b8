// Faults put into what the store gave, so that the comparison is seen to find them: one to a list, and taken out after it.
// A number or a byte is not what the store gave, two records or two names stand in each other's row, a page stands in another free place,
// or the branch rows, the marks of the live disk or the lists of work orders are those of another rule.
// Kept: the faults are numbers from 1, as the table of numbers holds them (FAULT) and the program `trials` lists their names; an enum of 114
// is no plainer, since most arms take a run of them and count from its first.
// Kept: the two tables are two parameters, w and b: the clauses of the public functions speak of `w.new`, and the comparisons read the one
// while they write the other.
ghost use Rattle.std.specs.Prelude.{◌≡◌, ◌+◌, ◌%◌, ◌^◌, MatchOption, Some, get_or, slice_index};
ghost use Rattle.trial_faults.specs.declared.spots.Spot.TheVariants.{Byte};

use crate::spots::{NOWHERE, Spot};
use crate::turns::Turn;
use crate::{live, orders, rows};
use trial_words::layout::{
    ANSWERS, AREA, BRANCH_TABLE, Bytes, DUE, FAULT, FAULTS, FAULTY, HEAD, HEAD_BRANCHES,
    HEAD_NAMES, HEAD_NOW, HEAD_RECORDS, MARK_TABLE, MOST_NAMES, NAME_TABLE, Numbers, PAGE_ANSWER,
    PLACE_ROWS, PLACE_TABLE, RECORD_TABLE, ROWS_READ, SLAB, SPOT, STOP, live_at, name_row,
    record_row,
};
use trial_words::request::listed;
use trial_words::words::{add, byte, get, minus, number_at, plus, put, put_byte};

// The fault that the family puts in.
fn fault_of(w: &Numbers) -> Option<u32>
    ensures { MatchOption result (slice_index w.now 59 ≡ 0) (λ fault. fault ≡ slice_index w.now 59) }
{
    match get(w, FAULT) {
        0 => None,
        fault => Some(fault),
    }
}

// How much is added at the place of a fault, and again taken from it: one, but two at the end of the first branch, which is the largest
// number; of a mark, what its fault says.
fn amount(w: &Numbers, put_in: bool) -> u32 {
    let step = match get(w, FAULT) {
        32 => 2,
        fault => live::step(fault),
    };
    if put_in { step } else { minus(0, step) }
}

// Where the fault stands in what the turn gave.
fn spot(w: &Numbers, b: &Bytes, fault: u32) -> Option<Spot> {
    match Turn::next(w) {
        Turn::Fresh => in_fresh(fault),
        Turn::Play => in_batch(w, b, fault),
        Turn::ReadBack | Turn::Ended => in_page(b, fault),
        Turn::Changed => in_refused(fault, get(w, DUE)),
        Turn::Live => live::spot(w, b, fault),
        Turn::LiveRefused => live::in_refused(fault),
        Turn::Orders => orders::spot(w, b, fault, true),
        Turn::OrdersChanged => orders::spot(w, b, fault, false),
    }
}

// A byte of the answer area.
fn in_answers(i: u32) -> Option<Spot>
    ensures { result ≡ Some (Byte ((8192 + i) % 2 ^ 32)) }
{
    Some(Spot::Byte(plus(ANSWERS, i)))
}

// In what a batch gave.
fn in_batch(w: &Numbers, b: &Bytes, fault: u32) -> Option<Spot> {
    match fault {
        1..=5 => in_answers(fault - 1),
        7..=10 => Some(Spot::Number(STOP + (fault - 7))),
        11..=15 => Some(Spot::Number(HEAD + (fault - 11))),
        16..=20 => in_record(w, fault, get(w, HEAD_RECORDS)),
        21 => in_answers(get(w, plus(STOP, 3))),
        22 => in_answers(minus(get(w, AREA), 1)),
        40 => in_place(w, get(w, HEAD_RECORDS)),
        41..=46 => in_names(fault, get(w, HEAD_NAMES)),
        // The moment that a naming answers with.
        47 if accepted(w, b, 6) => in_answers(4),
        50..=56 | 95 if accepted(w, b, 5) => rows::in_reclaim(w, fault),
        57 => Some(Spot::Number(ROWS_READ)),
        60..=67 => live::in_batch(w, b, fault, listed(w, 0)),
        92 => Some(Spot::Number(BRANCH_TABLE + 3)),
        93 | 94 if accepted(w, b, 3) => rows::in_revert(w, fault),
        _ => None,
    }
}

// Whether the first request of the batch is of an operation, and accepted.
fn accepted(w: &Numbers, b: &Bytes, operation: u32) -> bool {
    listed(w, 0).operation == operation && byte(b, ANSWERS) == 0
}

// The number of names; the last name's three numbers; the row behind it; the order of the first two.
fn in_names(fault: u32, names: u32) -> Option<Spot> {
    match fault {
        41 => Some(Spot::Number(HEAD_NAMES)),
        42..=44 if names > 0 => Some(Spot::Number(plus(name_row(names - 1), fault - 42))),
        45 if names < MOST_NAMES => Some(Spot::Number(name_row(names))),
        46 if names >= 2 => Some(Spot::Names),
        _ => None,
    }
}

// The last record's numbers, its page and its place row; the order of the first two.
fn in_record(w: &Numbers, fault: u32, records: u32) -> Option<Spot> {
    let at = record_row(records.checked_sub(1)?);
    let place = get(w, plus(at, 2)) % 16;
    match fault {
        16 => Some(Spot::Number(at)),
        17 => Some(Spot::Number(plus(at, 1))),
        18 if records == 1 => None,
        18 => Some(Spot::Records),
        19 => Some(Spot::Byte(SLAB + place * 256 + 255)),
        _ => Some(Spot::Number(PLACE_TABLE + place)),
    }
}

// The last record, in the largest free place.
fn in_place(w: &Numbers, records: u32) -> Option<Spot> {
    let row = record_row(records.checked_sub(1)?);
    let to = (0..get(w, PLACE_ROWS))
        .rev()
        .find(|p| get(w, plus(PLACE_TABLE, *p)) == 0)?;
    Some(Spot::Page {
        from: get(w, plus(row, 2)) % 16,
        to,
    })
}

// The page that the first answer has, and its date.
fn in_page(b: &Bytes, fault: u32) -> Option<Spot> {
    if byte(b, ANSWERS) != 2 {
        return None;
    }
    match fault {
        6 => in_answers(PAGE_ANSWER - 1),
        36..=39 => in_answers(fault - 31),
        _ => None,
    }
}

// In what a batch on a changed store gave, where a stop is due.
fn in_refused(fault: u32, due: u32) -> Option<Spot> {
    match fault {
        23 => Some(Spot::Number(STOP)),
        24 => Some(Spot::Number(HEAD_NOW)),
        29 => in_answers(0),
        58 if due == 2 => Some(Spot::Number(ROWS_READ)),
        59 if due == 3 => Some(Spot::Number(ROWS_READ)),
        _ => None,
    }
}

// In a fresh store.
fn in_fresh(fault: u32) -> Option<Spot> {
    match fault {
        30 => Some(Spot::Number(STOP)),
        31 => Some(Spot::Number(HEAD_BRANCHES)),
        32 => Some(Spot::Number(BRANCH_TABLE + 1)),
        33 => Some(Spot::Number(RECORD_TABLE)),
        34 => Some(Spot::Number(PLACE_TABLE)),
        35 => Some(Spot::Number(BRANCH_TABLE + 4)),
        48 => Some(Spot::Number(NAME_TABLE)),
        96 => Some(Spot::Number(BRANCH_TABLE + 3)),
        _ => None,
    }
}

// The tables and the live disk as they were before a batch on a changed store, so that the batch seems to have changed them; the disk as
// it was before a step that is refused, or before a batch that only reads.
fn in_kept(turn: Turn, fault: u32) -> Option<Spot> {
    match turn {
        Turn::Changed => in_kept_store(fault),
        Turn::LiveRefused => live::in_kept(fault, 86),
        Turn::ReadBack => live::in_kept(fault, 90),
        _ => None,
    }
}

// The tables and the live disk of a changed store.
fn in_kept_store(fault: u32) -> Option<Spot> {
    match fault {
        25 => Some(Spot::Number(BRANCH_TABLE)),
        26 => Some(Spot::Number(RECORD_TABLE)),
        27 => Some(Spot::Number(PLACE_TABLE)),
        28 => Some(Spot::Byte(SLAB)),
        49 => Some(Spot::Number(NAME_TABLE)),
        _ => live::in_kept(fault, 88),
    }
}

// Two numbers in each other's place.
fn swap(w: &mut Numbers, i: u32, j: u32) {
    let a = get(w, i);
    let b = get(w, j);
    put(w, i, b);
    put(w, j, a);
}

// The first n numbers of a row of three, and those of the row behind it, in each other's place.
pub(crate) fn swap_rows(w: &mut Numbers, row: u32, n: u32) {
    for i in 0..n {
        swap(w, plus(row, i), plus(row, plus(i, 3)));
    }
}

// Two bytes in each other's place.
pub(crate) fn swap_byte(b: &mut Bytes, i: u32, j: u32) {
    let x = byte(b, i);
    let y = byte(b, j);
    put_byte(b, i, y);
    put_byte(b, j, x);
}

// The 256 bytes from one index on, and those from another on, in each other's place.
fn swap_pages(b: &mut Bytes, i: u32, j: u32) {
    for k in 0..256u32 {
        swap_byte(b, plus(i, k), plus(j, k));
    }
}

// The record of a place, with its page, in a free place.
fn move_page(w: &mut Numbers, b: &mut Bytes, from: u32, to: u32) {
    let row = minus(get(w, plus(PLACE_TABLE, from)), 1);
    put(w, plus(record_row(row), 2), to);
    swap(w, plus(PLACE_TABLE, from), plus(PLACE_TABLE, to));
    swap_pages(b, SLAB + from % 16 * 256, SLAB + to % 16 * 256);
}

// A byte is so much more.
pub(crate) fn add_byte(b: &mut Bytes, i: u32, by: u32) {
    let v = byte(b, i);
    put_byte(b, i, plus(v, by));
}

// The fault is put in at its spot, or taken out.
fn shift(w: &mut Numbers, b: &mut Bytes, spot: Spot, put_in: bool) {
    match spot {
        Spot::Number(i) => add(w, i, amount(w, put_in)),
        Spot::Byte(i) => add_byte(b, i, amount(w, put_in)),
        Spot::Records => swap_rows(w, RECORD_TABLE, 3),
        Spot::Names => swap_rows(w, NAME_TABLE, 3),
        Spot::Page { from, to } if put_in => move_page(w, b, from, to),
        Spot::Page { from, to } => move_page(w, b, to, from),
        Spot::BranchRows(rows) => rows::shift(w, rows, put_in),
        Spot::Marks(i, j) => swap(w, plus(MARK_TABLE, i), plus(MARK_TABLE, j)),
        Spot::Reads => swap_pages(b, live_at(0), live_at(1)),
        Spot::List(k) => orders::shift(w, b, k, put_in),
    }
}

// The family's fault at its spot, unless the list has had it.
fn put_at(w: &mut Numbers, b: &mut Bytes, spot: Option<Spot>) {
    put(w, SPOT, NOWHERE);
    if let Some(spot) = spot
        && get(w, FAULTY) == 0
    {
        put(w, SPOT, u32::from(spot));
        put(w, FAULTY, 1);
        add(w, FAULTS, 1);
        shift(w, b, spot, true);
    }
}

// Before a comparison. Answers where the fault was put.
pub fn put_in(w: &mut Numbers, b: &mut Bytes) -> u32
    ensures { result ≡ get_or w.new 60 0 }
{
    let at = fault_of(w).and_then(|fault| spot(w, b, fault));
    put_at(w, b, at);
    number_at(w, SPOT)
}

// Before the tables are compared with what they were. Answers where the last fault was put.
pub fn put_in_kept(w: &mut Numbers, b: &mut Bytes) -> u32
    ensures { result ≡ get_or w.new 60 0 }
{
    let at = fault_of(w).and_then(|fault| in_kept(Turn::next(w), fault));
    put_at(w, b, at);
    number_at(w, SPOT)
}

// After a comparison. Answers where the fault was put.
pub fn take_out(w: &mut Numbers, b: &mut Bytes) -> u32
    ensures { result ≡ get_or w.old 60 0 }
{
    let at = number_at(w, SPOT);
    if let Some(spot) = Spot::numbered(at) {
        shift(w, b, spot, false);
    }
    at
}
