// The live disk against the reference: live reads, copying steps, and the disk and its marks after each call.
ghost use Rattle.std.specs.Prelude.{◌≡◌, get_or};

use crate::judge::{count_unless, is_filled};
use trial_reference::live;
use trial_reference::refusals::Refusal;
use trial_words::layout::{
    BUDGET, Bytes, COPIED, DUE, LIVE_READS, MARK_TABLE, Numbers, SIZE, TOUCHED, WRONG, disk_page,
    live_at,
};
use trial_words::words::{add, byte, get, number_at, plus};

// Whether the pages of the disk and their marks are those due.
pub(crate) fn disk_right(w: &Numbers, b: &Bytes) -> bool {
    (0..get(w, SIZE)).all(|a| page_right(w, b, a))
}

// Whether a page of the disk and its mark are those due.
fn page_right(w: &Numbers, b: &Bytes, a: u32) -> bool {
    get(w, plus(MARK_TABLE, a)) == live::mark(w, a)
        && is_filled(b, disk_page(a), 256, live::filling(w, a))
}

// A batch that only reads leaves the disk and its marks. Answers the differences in the list so far.
pub fn judge_kept(w: &mut Numbers) -> u32
    ensures { result ≡ get_or w.new 51 0 }
{
    count_unless(w, get(w, TOUCHED + 5) == 0);
    number_at(w, WRONG)
}

// Live reads, then a copying step: its count, and what it left of the disk and the marks. Answers the differences in the list so far.
pub fn judge(w: &mut Numbers, b: &Bytes) -> u32
    ensures { result ≡ get_or w.new 51 0 }
{
    judge_reads(w, b, 0);
    let count = live::step(w, get(w, BUDGET));
    judge_step(w, 0, count);
    count_unless(w, disk_right(w, b));
    number_at(w, WRONG)
}

// The same on a changed store, all of it refused with the stop that is due: no page, the count 0, and nothing is changed. Answers the
// differences in the list so far.
pub fn judge_refused(w: &mut Numbers, b: &Bytes) -> u32
    ensures { result ≡ get_or w.new 51 0 }
{
    let due = get(w, DUE);
    judge_reads(w, b, due);
    judge_step(w, due, 0);
    judge_kept(w)
}

// What a step reported: its refusal and its count.
fn judge_step(w: &mut Numbers, refusal: u32, count: u32) {
    count_unless(w, get(w, COPIED) == refusal);
    count_unless(w, get(w, COPIED + 1) == count);
}

// Every address, and the one behind the last.
fn judge_reads(w: &mut Numbers, b: &Bytes, refused: u32) {
    let size = get(w, SIZE);
    for a in 0..plus(size, 1) {
        judge_read(w, b, a, refusal_due(a, size, refused));
    }
}

// The refusal that is due of a live read.
// Kept: a number, since it is the stop that stands in the flat table, or the refusal of an address.
fn refusal_due(a: u32, size: u32, refused: u32) -> u32 {
    if refused == 0 && a >= size {
        Refusal::Address as u32
    } else {
        refused
    }
}

// The refusal, then the page due, or an empty part.
fn judge_read(w: &mut Numbers, b: &Bytes, a: u32, refusal: u32) {
    let page = if refusal == 0 {
        live::page_now(w, a)
    } else {
        None
    };
    let kind = kind_of(w, a, refusal, page);
    add(w, LIVE_READS + kind as u32, 1);
    let at = live_at(a);
    count_unless(w, byte(b, plus(at, 256)) == refusal);
    count_unless(w, byte(b, plus(at, 257)) == u32::from(page.is_some()));
    if let Some(byte) = page {
        count_unless(w, is_filled(b, at, 256, byte));
    }
}

// What a live read gives: a page of the disk, a blank one, a stored page, none stored, a refusal.
#[derive(Clone, Copy, PartialEq, Eq)]
enum Kind {
    Disk,
    Blank,
    Stored,
    NoneStored,
    Refused,
}

// A current page is read from the disk, a stale one from the slab.
fn kind_of(w: &Numbers, a: u32, refusal: u32, page: Option<u32>) -> Kind {
    if refusal != 0 {
        return Kind::Refused;
    }
    match (live::is_current(w, a), page) {
        (true, Some(_)) => Kind::Disk,
        (true, None) => Kind::Blank,
        (false, Some(_)) => Kind::Stored,
        (false, None) => Kind::NoneStored,
    }
}
