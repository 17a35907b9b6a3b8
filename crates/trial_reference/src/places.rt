// The places of the reference: which are in use, and which were when the batch began. A new pair takes the free one with the smallest number.
ghost use Rattle.std.specs.Prelude.{◌≡◌, ◌+◌, ◌%◌, length};

use trial_words::layout::{LAST_TAKEN, Numbers, PLACE_ROWS, PLACES, TOLD};
use trial_words::words::{add, get, minus, plus, put};

// A place: 1 where it is in use, and 2 more where it was when the batch began.
fn place_at(p: u32) -> u32
    ensures { result ≡ 112 + p % 16 }
{
    PLACES + p % 16
}

fn in_use(w: &Numbers, p: u32) -> bool {
    get(w, place_at(p)) % 2 == 1
}

// A fresh store: all are free.
pub(crate) fn free_all(w: &mut Numbers)
    ensures { length w.new ≡ length w.old }
{
    for p in 0..16u32 {
        put(w, place_at(p), 0);
    }
}

// A batch begins.
pub fn begin_batch(w: &mut Numbers)
    ensures { length w.new ≡ length w.old }
{
    for p in 0..16u32 {
        put(w, place_at(p), get(w, place_at(p)) % 2 * 3);
    }
    put(w, LAST_TAKEN, 0);
}

// The free place with the smallest number; 16 where all are in use.
fn smallest(w: &Numbers) -> u32 {
    (0..16u32).find(|p| !in_use(w, *p)).unwrap_or(16)
}

// The place that a new pair takes.
pub(crate) fn take(w: &mut Numbers) -> u32 {
    let p = smallest(w);
    tell_apart(w, p);
    add(w, place_at(p), 1);
    put(w, LAST_TAKEN, p);
    p
}

pub(crate) fn give_back(w: &mut Numbers, p: u32) {
    put(w, place_at(p), minus(get(w, place_at(p)), 1));
}

// It is counted where another choice would have given another place: the largest free one; the one behind the last in use; the first of
// those that were free when the batch began; the first one from the place on that the batch took last.
fn tell_apart(w: &mut Numbers, p: u32) {
    count(w, TOLD, largest(w) != p);
    count(w, TOLD + 1, behind_last(w) != p);
    count(w, TOLD + 2, get(w, place_at(p)) != 0);
    count(w, TOLD + 3, p < get(w, LAST_TAKEN));
}

fn count(w: &mut Numbers, i: u32, told: bool) {
    add(w, i, u32::from(told));
}

// The largest free place; 0 where all are in use.
fn largest(w: &Numbers) -> u32 {
    (0..get(w, PLACE_ROWS))
        .rev()
        .find(|p| !in_use(w, *p))
        .unwrap_or(0)
}

fn behind_last(w: &Numbers) -> u32 {
    (0..16u32)
        .rev()
        .find(|p| in_use(w, *p))
        .map_or(0, |p| plus(p, 1))
}
