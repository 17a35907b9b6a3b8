// The reference's table checks: which of the stops 1, 2, 3 and 18 is due for the head, the lengths, the tables and the marks as they stand.
ghost use Rattle.std.specs.Prelude.{◌<◌};

use crate::stop::Stop;
use std::cmp::Ordering;
use trial_words::layout::{
    BRANCH_LENGTH, BRANCH_TABLE, DISK_LENGTH, HEAD, HEAD_BRANCHES, HEAD_FLOOR, HEAD_NAMES,
    HEAD_NOW, HEAD_RECORDS, LAST, MARK_LENGTH, MARK_TABLE, MOST_NAMES, NAME_LENGTH, NAME_NUMBERS,
    NAME_TABLE, Numbers, PLACE_LENGTH, PLACE_TABLE, RECORD_LENGTH, SLAB_LENGTH, record_row,
};
use trial_words::names::{moment_of, name_of};
use trial_words::rows::{Row, get_row, holds};
use trial_words::rules::need;
use trial_words::words::{get, minus, part, plus};

// A rule that a record breaks: its address; its moment is above now, or no branch holds it; it stands below the record before it, or is
// the same; its place is outside the table, or another record's.
#[derive(Clone, Copy, PartialEq, Eq)]
pub(crate) enum Rule {
    Address = 1,
    Above,
    NoBranch,
    Below,
    Same,
    Outside,
    Another,
}

// Whether the tables are sound, else the stop that is due.
pub(crate) fn sound(w: &Numbers) -> Result<(), Stop> {
    need(lengths_right(w) && head_right(w), Stop::Head)?;
    need(
        branches_right(w) && orders_right(w) && names_right(w),
        Stop::Rows,
    )?;
    need(first_broken(w, 0).is_none(), Stop::Records)?;
    let places = in_use(w, PLACE_TABLE, get(w, PLACE_LENGTH));
    need(places == get(w, HEAD_RECORDS) as usize, Stop::Records)?;
    need(live_right(w, get(w, HEAD)), Stop::Disk)
}

// The live disk has 256 bytes for each page, and there is a mark for each.
fn live_right(w: &Numbers, size: u32) -> bool {
    get(w, DISK_LENGTH) == size % 65537 * 256
        && get(w, MARK_LENGTH) == size
        && (0..size).all(|a| get(w, plus(MARK_TABLE, a)) <= 3)
}

// How many record rows are read where that stop is due: up to and including the first that breaks a rule, else all; none with 1 and 2.
pub(crate) fn rows_read(w: &Numbers, due: Result<(), Stop>) -> u32 {
    match due {
        Err(Stop::Head | Stop::Rows) => 0,
        _ => first_broken(w, 0).map_or(get(w, HEAD_RECORDS), |k| plus(k, 1)),
    }
}

// One row to so many, and no number besides.
fn whole_rows(numbers: u32, width: u32, most: u32) -> bool
    requires { 0 < width }
{
    numbers % width == 0 && (1..=most).contains(&(numbers / width))
}

// The lengths lent are those of whole rows, of all name rows, and of a page for each place.
fn lengths_right(w: &Numbers) -> bool {
    let places = get(w, PLACE_LENGTH);
    whole_rows(get(w, BRANCH_LENGTH), 4, 4096)
        && whole_rows(get(w, RECORD_LENGTH), 3, 65536)
        && whole_rows(places, 1, 65536)
        && get(w, NAME_LENGTH) == NAME_NUMBERS
        && get(w, SLAB_LENGTH) == places % 65537 * 256
}

// The numbers of the head are within what is lent.
fn head_right(w: &Numbers) -> bool {
    (1..=65536).contains(&get(w, HEAD))
        && (1..=get(w, BRANCH_LENGTH) / 4).contains(&get(w, HEAD_BRANCHES))
        && get(w, HEAD_RECORDS) <= get(w, RECORD_LENGTH) / 3
        && get(w, HEAD_NAMES) <= MOST_NAMES
        && get(w, HEAD_FLOOR) <= get(w, HEAD_NOW)
}

// Each branch row is right.
fn branches_right(w: &Numbers) -> bool {
    let n = get(w, HEAD_BRANCHES);
    (0..n).all(|i| branch_right(w, i, n))
}

// The i-th of n rows ends where it starts or behind it, is open exactly as the last, and the first starts at 0 with no cut.
fn branch_right(w: &Numbers, i: u32, n: u32) -> bool {
    let row = get_row(w, branch_row(i));
    row.start <= row.end
        && open_right(w, row, plus(i, 1) == n)
        && if i == 0 {
            row.start == 0 && row.cut == 0
        } else {
            later_right(w, i, row)
        }
}

// Only the last row is open, and it has begun.
fn open_right(w: &Numbers, row: Row, last: bool) -> bool {
    if last {
        row.end == LAST && row.start <= get(w, HEAD_NOW)
    } else {
        row.end != LAST
    }
}

// A row that is not the first: it stands after the row before it, with no gap above the floor, and its cut is in an earlier row.
fn later_right(w: &Numbers, i: u32, row: Row) -> bool {
    let end = get_row(w, branch_row(minus(i, 1))).end;
    row.start > end
        && (row.start == plus(end, 1) || row.start <= get(w, HEAD_FLOOR))
        && is_held(w, i, row.cut)
}

// Each work order is right.
fn orders_right(w: &Numbers) -> bool {
    (0..get(w, HEAD_BRANCHES)).all(|i| order_right(w, i))
}

// The first row has the work order 0, and no row more than 65,535.
pub(crate) fn order_right(w: &Numbers, i: u32) -> bool {
    order_of(w, i) <= if i == 0 { 0 } else { 65535 }
}

pub(crate) fn order_of(w: &Numbers, i: u32) -> u32 {
    get(w, plus(branch_row(i), 3))
}

// Whether 2, where it is due, is so for a work order only.
pub(crate) fn only_orders_wrong(w: &Numbers) -> bool {
    branches_right(w) && names_right(w)
}

// Whether a row past the count has a work order above 65,535.
pub(crate) fn order_past(w: &Numbers) -> bool {
    (get(w, HEAD_BRANCHES)..get(w, BRANCH_LENGTH) / 4).any(|i| order_of(w, i) > 65535)
}

// Whether one of the first n rows holds a moment.
fn is_held(w: &Numbers, n: u32, moment: u32) -> bool {
    (0..n).any(|i| holds(w, branch_row(i), moment))
}

// Each name row is right.
fn names_right(w: &Numbers) -> bool {
    (0..get(w, HEAD_NAMES)).all(|k| name_right(w, k))
}

// A name's moment is sealed and inside a row, and no earlier name is the same.
fn name_right(w: &Numbers, k: u32) -> bool {
    let moment = moment_of(w, NAME_TABLE, k);
    moment < get(w, HEAD_NOW)
        && is_held(w, get(w, HEAD_BRANCHES), moment)
        && !(0..k).any(|j| name_of(w, NAME_TABLE, j) == name_of(w, NAME_TABLE, k))
}

// The first record row from an index on that breaks a rule.
fn first_broken(w: &Numbers, from: u32) -> Option<u32> {
    (from..get(w, HEAD_RECORDS)).find(|k| record_right(w, *k).is_err())
}

// Whether a record breaks no rule, else the first that it breaks.
fn record_right(w: &Numbers, k: u32) -> Result<(), Rule> {
    let moment = get(w, plus(record_row(k), 1));
    need(get(w, record_row(k)) < get(w, HEAD), Rule::Address)?;
    need(moment <= get(w, HEAD_NOW), Rule::Above)?;
    need(is_held(w, get(w, HEAD_BRANCHES), moment), Rule::NoBranch)?;
    ascent_right(w, k)?;
    place_right(w, k)
}

// The record's place is in the table, and the place row names the record.
fn place_right(w: &Numbers, k: u32) -> Result<(), Rule> {
    let place = get(w, plus(record_row(k), 2));
    need(place < get(w, PLACE_LENGTH), Rule::Outside)?;
    need(
        get(w, plus(PLACE_TABLE, place)) == plus(k, 1),
        Rule::Another,
    )
}

// The address and the moment of a record.
fn pair_at(w: &Numbers, k: u32) -> (u32, u32) {
    (get(w, record_row(k)), get(w, plus(record_row(k), 1)))
}

// The record stands after the one before it, by address, then by moment.
fn ascent_right(w: &Numbers, k: u32) -> Result<(), Rule> {
    if k == 0 {
        return Ok(());
    }
    match pair_at(w, minus(k, 1)).cmp(&pair_at(w, k)) {
        Ordering::Less => Ok(()),
        Ordering::Equal => Err(Rule::Same),
        Ordering::Greater => Err(Rule::Below),
    }
}

// Where 3 is due and so many record rows are read: the rule that the last one breaks.
pub(crate) fn last_broken(w: &Numbers, rows: u32) -> Option<Rule> {
    record_right(w, rows.checked_sub(1)?).err()
}

// Whether one of the rows behind those read breaks a rule too.
pub(crate) fn broken_behind(w: &Numbers, rows: u32) -> bool {
    first_broken(w, rows).is_some()
}

// How many of n numbers from an index on are not 0.
pub(crate) fn in_use(w: &Numbers, at: u32, n: u32) -> usize {
    part(w, at, n).iter().filter(|x| **x != 0).count()
}

// The i-th row of the branch table.
pub(crate) fn branch_row(i: u32) -> u32 {
    BRANCH_TABLE + i % 65536 * 4
}
