// The calls of the store. What is lent to it is copied from the tables of numbers and bytes, and back.
ghost use Rattle.std.specs.Prelude.{◌≡◌, length, get_or};

use crate::copies::{area, first, first_mut, note_list, note_read, number, put_back};
use crate::lent::{Copies, Lent, LentLive, Live, Shown};
use batch::Batched;
use live::Copied;
use model::Head;
use trial_faults::faults;
use trial_words::layout::{
    ANSWERS, AREA, ASKED, ASKS, BUDGET, Bytes, COPIED, HEAD, HEAD_FLOOR, INPUT, INPUT_BYTES,
    LIST_COUNT, Numbers, ROWS_READ, SIZE, STOP,
};
use trial_words::words::{get, number_at, plus, put, put_four, put_two};
use work_orders::Listed;

// The store's head.
fn head(w: &Numbers) -> Head {
    Head {
        size: get(w, 0),
        branches: get(w, 1),
        records: get(w, 2),
        now: get(w, 3),
        floor: get(w, 4),
        names: get(w, 5),
    }
}

// A head is noted as the store's.
fn note_head(w: &mut Numbers, h: Head) {
    put_four(w, HEAD, h.size, h.branches, h.records, h.now);
    put_two(w, HEAD_FLOOR, h.floor, h.names);
}

// What a batch reported is noted.
fn note(w: &mut Numbers, r: Batched) {
    let d = r.done;
    note_head(w, d.head);
    put(w, ROWS_READ, number(r.rows));
    put_four(
        w,
        STOP,
        d.stop,
        number(d.answered),
        number(d.taken),
        number(d.sent),
    );
}

// The answer area before a call.
fn blank_area() -> [u8; 4096] {
    [165; 4096]
}

// A batch on what is lent, of the bytes handed in, and what it reported.
fn batch_on(
    w: &mut Numbers,
    t: Lent,
    slab: &mut [u8],
    live: LentLive,
    input: &[u8],
    answers: &mut [u8],
) {
    let Lent {
        branches,
        records,
        places,
        names,
    } = t;
    let LentLive { disk, marks } = live;
    let input = first(input, get(w, INPUT));
    let answers = first_mut(answers, get(w, AREA));
    let r = batch::batch(
        head(w),
        branches,
        records,
        places,
        names,
        slab,
        disk,
        marks,
        input,
        answers,
    );
    note(w, r);
}

// A batch of the bytes handed in, and what it left. Answers the stop number.
pub fn ask(w: &mut Numbers, b: &mut Bytes) -> u32
    ensures { result ≡ get_or w.new 6 0 }
{
    let input: [u8; 2304] = area(b, INPUT_BYTES, 0);
    let mut tables = Copies::of(w, b);
    let mut live = Live::of(w, b);
    let mut answers = blank_area();
    let (t, slab) = tables.lent(w);
    let l = live.lent(w);
    batch_on(w, t, slab, l, &input, &mut answers);
    faults::put_in_kept(w, b);
    live.save(w, b);
    tables.save(w);
    tables.save_slab(w, b);
    put_back(b, ANSWERS, &answers);
    number_at(w, STOP)
}

// A batch of the bytes handed in on tables that the caller holds, and on a live disk of eight pages that is not kept. Answers the stop number.
pub fn ask_over(w: &mut Numbers, b: &mut Bytes, t: Lent, slab: &mut [u8]) -> u32
    ensures { result ≡ get_or w.new 6 0 }
{
    let input: [u8; 2304] = area(b, INPUT_BYTES, 0);
    let mut live = Live::<2048>::blank();
    let mut answers = blank_area();
    let l = live.lent(w);
    batch_on(w, t, slab, l, &input, &mut answers);
    put_back(b, ANSWERS, &answers);
    number_at(w, STOP)
}

// A live read of an address. Its page, its refusal and whether there is a page go to its place.
fn read_one(h: Head, t: Shown, live: &LentLive, a: u32, place: &mut [u8]) {
    let mut refusal: u32 = 0;
    let page = live_pages::live_read(
        h,
        t.branches,
        t.records,
        t.places,
        t.names,
        t.slab,
        live.disk,
        live.marks,
        a,
        &mut refusal,
    );
    note_read(page, refusal, place);
}

// Live reads of the first n addresses, each with its place in an area.
fn read_all(h: Head, t: Shown, live: &LentLive, n: u32, area: &mut [u8]) {
    for (a, place) in (0..n).zip(area.chunks_mut(260)) {
        read_one(h, t, live, a, place);
    }
}

// A copying step on what is lent.
fn step_on(h: Head, t: Shown, live: LentLive, budget: u32) -> Copied {
    let LentLive { disk, marks } = live;
    copying::copy_step(
        h, t.branches, t.records, t.places, t.names, t.slab, disk, marks, budget,
    )
}

// Live reads of every address and of the one behind the last, then a copying step, and what it left. Answers the step's refusal.
pub fn look(w: &mut Numbers, b: &mut Bytes) -> u32
    ensures { result ≡ get_or w.new 485 0 }
{
    let tables = Copies::of(w, b);
    let mut live = Live::of(w, b);
    let mut area = blank_area();
    let t = tables.shown(w);
    let l = live.lent(w);
    read_all(head(w), t, &l, plus(get(w, SIZE), 1), &mut area);
    let c = step_on(head(w), t, l, get(w, BUDGET));
    put_two(w, COPIED, c.refusal, c.count);
    faults::put_in_kept(w, b);
    live.save(w, b);
    put_back(b, ANSWERS, &area);
    number_at(w, COPIED)
}

// A list of work orders at a moment.
fn list_one(h: Head, t: Shown, moment: u32, list: &mut [u8]) -> Listed {
    listing::list_orders(
        h, t.branches, t.records, t.places, t.names, t.slab, moment, list,
    )
}

// The k-th of the lists asked for, of at most 48 bytes. Its refusal and its count go behind it.
fn list_next(w: &Numbers, t: Shown, k: u32, place: &mut [u8]) {
    let at = ASKS + k % 48 * 2;
    let list = first_mut(place, get(w, plus(at, 1)) % 49);
    let r = list_one(head(w), t, get(w, at), list);
    note_list(r.refusal, number(r.count), place);
}

// The first n of the lists asked for, each with its place in an area.
fn list_all(w: &Numbers, t: Shown, n: u32, area: &mut [u8]) {
    for (k, place) in (0..n).zip(area.chunks_mut(80)) {
        list_next(w, t, k, place);
    }
}

// The lists of work orders asked for, and what they gave. Answers how many.
pub fn list(w: &Numbers, b: &mut Bytes) -> u32
    ensures { result ≡ get_or w.now 639 0 }
{
    let tables = Copies::of(w, b);
    let mut area = blank_area();
    list_all(w, tables.shown(w), get(w, ASKED), &mut area);
    put_back(b, ANSWERS, &area);
    number_at(w, ASKED)
}

// A list of work orders at a moment on tables that the caller holds. Answers how many orders it has; 0 where it is refused.
pub fn list_over(w: &mut Numbers, t: Shown, moment: u32, list: &mut [u8]) -> u32
    ensures { result ≡ get_or w.new 429 0 }
{
    let r = list_one(head(w), t, moment, list);
    put(
        w,
        LIST_COUNT,
        if r.refusal == 0 { number(r.count) } else { 0 },
    );
    number_at(w, LIST_COUNT)
}

// A fresh store of the sizes on trial over tables that the caller holds. Its refusal is noted as the stop number. Answers it.
pub fn make_over(w: &mut Numbers, t: Lent, slab: &[u8]) -> u32
    ensures { result ≡ get_or w.new 6 0 }
{
    let Lent {
        branches,
        records,
        places,
        names,
    } = t;
    let size = get(w, SIZE);
    let made = fresh::make(head(w), size, branches, records, places, names, slab);
    note_head(w, made.head);
    put(w, STOP, made.refusal);
    number_at(w, STOP)
}

// A fresh store of the sizes on trial. Its refusal is noted as the stop number. Answers it.
pub fn make(w: &mut Numbers, b: &Bytes) -> u32
    ensures { result ≡ get_or w.new 6 0 }
{
    let mut tables = Copies::of(w, b);
    let (t, slab) = tables.lent(w);
    make_over(w, t, slab);
    tables.save(w);
    number_at(w, STOP)
}
