// Faults in the live disk and its marks as a batch or a copying step left them, and in what live reads and steps gave.
ghost use Rattle.std.specs.Prelude.{◌≡◌, ◌+◌, ◌*◌, ◌%◌, ◌^◌, ◌<◌, Some, get_or, slice_index};
ghost use Rattle.trial_faults.specs.declared.spots.Spot.TheVariants.{Byte, Number};

use crate::spots::Spot;
use trial_words::layout::{
    ANSWERS, Bytes, COPIED, DISK, MARK_TABLE, MARKS_BEFORE, Numbers, SIZE, disk_page, live_at,
};
use trial_words::request::Request;
use trial_words::words::{byte, get, minus, number_at, plus, put};

// How much is added at the place of a fault.
pub(crate) fn step(fault: u32) -> u32 {
    match fault {
        61 | 78 => minus(0, 2),
        63 | 72 | 77 => minus(0, 1),
        64 | 79 => 2,
        _ => 1,
    }
}

// The marks before a step are noted. Answers the first.
pub fn note_before(w: &mut Numbers) -> u32
    ensures { result ≡ get_or w.new 488 0 }
{
    for a in 0..4u32 {
        let mark = mark_of(w, a);
        put(w, plus(MARKS_BEFORE, a), mark);
    }
    number_at(w, MARKS_BEFORE)
}

// The mark of a page.
fn mark_of(w: &Numbers, a: u32) -> u32
    ensures { a < 8 → result ≡ slice_index w.now (500 + a) }
{
    get(w, plus(MARK_TABLE, a))
}

// The same, as a spot.
fn in_mark(a: u32) -> Option<Spot>
    ensures { result ≡ Some (Number ((500 + a) % 2 ^ 32)) }
{
    Some(Spot::Number(plus(MARK_TABLE, a)))
}

// The last byte of a page of the disk.
fn in_disk(a: u32) -> Option<Spot>
    ensures { result ≡ Some (Byte (6656 + a % 4 * 256 + 255)) }
{
    Some(Spot::Byte(disk_page(a) + 255))
}

// After a batch of one request: one that is refused, an accepted write, or an accepted revert.
pub(crate) fn in_batch(w: &Numbers, b: &Bytes, fault: u32, r: Request) -> Option<Spot> {
    if byte(b, ANSWERS) >= 4 {
        return in_kept(fault, 66);
    }
    match r.operation {
        1 => in_write(fault, r.address % 4),
        3 => in_revert(w, fault),
        _ => None,
    }
}

// The mark of the page written, and its last byte.
fn in_write(fault: u32, a: u32) -> Option<Spot> {
    match fault {
        63 | 64 => in_mark(a),
        65 => in_disk(a),
        _ => None,
    }
}

// The first mark, that of a page blank and current, and the first byte of the disk.
fn in_revert(w: &Numbers, fault: u32) -> Option<Spot> {
    match fault {
        60 => in_mark(0),
        61 => in_mark(last_marked(w, 2, 2)?),
        62 => Some(Spot::Byte(DISK)),
        _ => None,
    }
}

// The first mark, or the first byte of the disk, where the fault is the first of two or the second.
pub(crate) fn in_kept(fault: u32, first: u32) -> Option<Spot> {
    match minus(fault, first) {
        0 => in_mark(0),
        1 => Some(Spot::Byte(DISK)),
        _ => None,
    }
}

// The last page with a mark or another.
fn last_marked(w: &Numbers, mark: u32, other: u32) -> Option<u32> {
    (0..get(w, SIZE))
        .rev()
        .find(|a| mark_of(w, *a) == mark || mark_of(w, *a) == other)
}

// In what live reads and a step gave.
pub(crate) fn spot(w: &Numbers, b: &Bytes, fault: u32) -> Option<Spot> {
    match fault {
        68 => Some(Spot::Byte(live_at(get(w, SIZE)) + 256)),
        69 => Some(Spot::Byte(live_at(0) + 256)),
        70 => in_neighbours(b),
        71..=73 => in_read(w, b, fault),
        74 | 75 => Some(Spot::Number(COPIED + (fault - 74))),
        // The page of a larger address turned in place of the first.
        76 => Some(Spot::Marks(first_turned(w, fault)?, last_marked(w, 0, 2)?)),
        77..=79 => in_mark(first_turned(w, fault)?),
        80 | 81 => in_disk(first_turned(w, fault)?),
        _ => None,
    }
}

// In what live reads and a step gave that were refused.
pub(crate) fn in_refused(fault: u32) -> Option<Spot> {
    match fault {
        82 | 83 => Some(Spot::Byte(live_at(0) + (fault - 82) + 256)),
        84 | 85 => Some(Spot::Number(COPIED + (fault - 84))),
        _ => None,
    }
}

// 1 where a live read gave a page, 0 where it gave none.
fn page_given(b: &Bytes, a: u32) -> u32 {
    byte(b, plus(live_at(a), 257))
}

// Two pages that are not the same, of the first two addresses.
fn in_neighbours(b: &Bytes) -> Option<Spot> {
    let both = page_given(b, 0) == 1 && page_given(b, 1) == 1;
    if both && byte(b, live_at(0)) != byte(b, live_at(1)) {
        Some(Spot::Reads)
    } else {
        None
    }
}

// The first read that gave no page, or the first that gave one, or its last byte.
fn in_read(w: &Numbers, b: &Bytes, fault: u32) -> Option<Spot> {
    let at: u32 = if fault == 73 { 255 } else { 257 };
    let given = u32::from(fault != 71);
    let a = (0..get(w, SIZE)).find(|a| page_given(b, *a) == given)?;
    Some(Spot::Byte(plus(live_at(a), at)))
}

// The first page that the step turned and that the fault can be in.
fn first_turned(w: &Numbers, fault: u32) -> Option<u32> {
    (0..get(w, SIZE)).find(|a| turned(w, fault, *a))
}

// Whether the step turned a page that the fault can be in.
fn turned(w: &Numbers, fault: u32, a: u32) -> bool {
    let before = get(w, plus(MARKS_BEFORE, a));
    let after = mark_of(w, a);
    if before % 2 == 1 {
        return false;
    }
    match fault {
        78 | 81 => after == 3,
        79 => plus(after, plus(before, before)) == 5,
        80 => after == 1,
        _ => after % 2 == 1,
    }
}
