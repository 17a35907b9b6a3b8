// The live disk of the reference: the byte that fills each page, and its mark. An accepted write goes to the disk, and its page is then
// current and not blank; an accepted revert makes every page stale; a copying step brings the lowest stale pages to date.
ghost use Rattle.std.specs.Prelude.{◌≡◌, ◌+◌, ◌*◌, ◌%◌, ◌≤◌, ◌↔◌, length, get_or, IsTrue, MatchOption};

use crate::page_at;
use trial_words::layout::{
    DISK_DUE, LEFT_STALE, MARKS_DUE, NOW, NUMBER, Numbers, SIZE, STEPS, TURNED, TURNED_BLANK,
};
use trial_words::words::{add, get, number_at, put};

// The mark due of a page: 1 where it is current, and 2 more where it is blank.
pub fn mark(w: &Numbers, a: u32) -> u32
    ensures { result ≡ get_or w.now (496 + a % 4) 0 }
{
    number_at(w, MARKS_DUE + a % 4)
}

// Whether a page is current.
pub fn is_current(w: &Numbers, a: u32) -> bool
    ensures { IsTrue result ↔ (get_or w.now (496 + a % 4) 0 % 2 ≡ 1) }
{
    mark(w, a) % 2 == 1
}

fn put_mark(w: &mut Numbers, a: u32, mark: u32)
    ensures { length w.new ≡ length w.old }
{
    put(w, MARKS_DUE + a % 4, mark);
}

// The byte due in all of a page.
pub fn filling(w: &Numbers, a: u32) -> u32
    ensures { result ≡ get_or w.now (492 + a % 4) 0 }
{
    number_at(w, DISK_DUE + a % 4)
}

// A list begins with stale pages of any bytes, some of them marked blank, as its number says.
pub(crate) fn begin(w: &mut Numbers)
    ensures { length w.new ≡ length w.old }
{
    let n = get(w, NUMBER) % 256;
    for a in 0..4u32 {
        put(w, DISK_DUE + a, (n + a * 50) % 256);
        put_mark(w, a, (n >> a) % 2 * 2);
    }
}

// A page goes to the disk.
pub(crate) fn write(w: &mut Numbers, a: u32, byte: u32) {
    put(w, DISK_DUE + a % 4, byte);
    put_mark(w, a, 1);
}

// Every page becomes stale.
pub(crate) fn set_back(w: &mut Numbers) {
    for a in 0..4u32 {
        put_mark(w, a, mark(w, a) / 2 * 2);
    }
}

// The byte of the page that a read at now gives.
pub fn page_now(w: &Numbers, a: u32) -> Option<u32>
    ensures { let code = get_or w.now (2048 + get_or w.now 21 0 % 256 * 8 + a % 4 * 2) 0 in MatchOption result (code ≡ 0) (λ byte. byte + 1 ≡ code) }
{
    number_at(w, page_at(number_at(w, NOW), a)).checked_sub(1)
}

// A copying step. Answers how many pages it brought to date: no more than the budget.
pub fn step(w: &mut Numbers, budget: u32) -> u32
    ensures { result ≤ budget }
{
    let mut count: u32 = 0;
    add(w, STEPS, 1);
    for a in 0..get(w, SIZE) {
        if !is_current(w, a) {
            if count < budget {
                bring(w, a);
                count += 1;
            } else {
                add(w, LEFT_STALE, 1);
            }
        }
    }
    count
}

// A stale page is brought to date: one that a read at now finds is copied, any other is marked blank and keeps its bytes.
fn bring(w: &mut Numbers, a: u32) {
    add(w, TURNED, 1);
    match page_now(w, a) {
        Some(byte) => write(w, a, byte),
        None => {
            put_mark(w, a, 3);
            add(w, TURNED_BLANK, 1);
        }
    }
}
