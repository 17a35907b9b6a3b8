// The lists of requests: every short one over an alphabet, and long ones from a generator; and the lists of work orders to ask for.
ghost use Rattle.std.specs.Prelude.{◌≡◌, ◌+◌, ◌*◌, ◌%◌, ◌^◌, length, get_or};

use trial_reference::{names, orders};
use trial_words::layout::{
    AREA, ASKED, BUDGET, BUDGET_SEED, CALLED, COUNT, CUT, FIRST, FLOOR, HEAD_FLOOR, HEAD_NOW, LAST,
    LENGTH, LIST_COUNT, MODE, Mode, NAME_TABLE, NAMES, NOW, NUMBER, Numbers, ORDER_SEED,
    PAGE_ANSWER, SEED, SIZE, asked_at,
};
use trial_words::request::{Operation, Request, put_request};
use trial_words::words::{get, minus, number_at, plus, put, put_two, remainder};

// The letters of the alphabets: the first 7, 10 or 18, or 5 from the 18th on; of those that name moments, the first 7 or all 10 from the
// 23rd on, or 5 from the 33rd on.
fn letter(k: u32) -> Request {
    match k {
        0 => Request::write(0, 1),
        1 => Request::mark(),
        2 => Request::revert(0),
        3 => Request::revert(1),
        4 => Request::reclaim(1),
        5 => Request::reclaim(2),
        6 => Request::write(1, 2),
        7 => Request::write(0, 2),
        8 => Request::revert(2),
        9 => Request::reclaim(3),
        10 => Request::write(1, 1),
        11 => Request::revert(3),
        12 => Request::reclaim(0),
        13 => Request::read(0, 0),
        14 => Request::read(0, 1),
        15 => Request::read(0, 2),
        16 => Request::read(1, 3),
        17 => Request::write(2, 1),
        18 => Request::write(0, 1),
        19 => Request::mark(),
        20 => Request::revert(0),
        21 => Request::reclaim(1),
        22 => Request::read(0, 0),
        _ => naming_letter(minus(k, 23)),
    }
}

fn naming_letter(k: u32) -> Request {
    match k {
        0 => Request::write(0, 1),
        1 => Request::mark(),
        2 => Request::revert(0),
        3 => Request::reclaim(1),
        4 => Request::give_name(0, 1),
        5 => Request::withdraw_name(1),
        6 => Request::give_name(0, 0),
        7 => Request::give_name(1, 0),
        8 => Request::withdraw_name(0),
        9 => Request::reclaim(2),
        10 => Request::mark(),
        11 => Request::give_name(0, 17),
        12 => Request::give_name(0, 1),
        13 => Request::withdraw_name(17),
        _ => Request::revert(0),
    }
}

// A request is listed; a revert gets a work order.
fn put_ordered(w: &mut Numbers, k: u32, r: Request) {
    let address = if r.operation == Operation::Revert as u32 {
        drawn_order(w)
    } else {
        r.address
    };
    put_request(w, k, Request { address, ..r });
}

// One of 0, 1, 255, 256 and 65,535, or any of 16 bits.
fn drawn_order(w: &mut Numbers) -> u32 {
    let kind = draw(w, ORDER_SEED, 8);
    let any = draw(w, ORDER_SEED, 65536);
    match kind {
        0 => 0,
        1 => 1,
        2 => 255,
        3 => 256,
        4 => 65535,
        _ => any,
    }
}

// The k-th letter of the list.
fn letter_at(k: u32) -> u32 {
    96 + k % 16
}

// The letters of the list of a number.
pub fn spell(w: &mut Numbers, number: u32, letters: u32)
    ensures { length w.new ≡ length w.old }
{
    let mut rest = number;
    for k in 0..8u32 {
        put(w, letter_at(k), remainder(rest, letters));
        rest = rest.checked_div(letters).unwrap_or(0);
    }
}

fn put_letter(w: &mut Numbers, k: u32, from: u32) {
    let l = plus(get(w, FIRST), get(w, letter_at(from)));
    put_ordered(w, k, letter(l));
}

// How many batches a list is handed in with: each request by itself, all at once, or as many as the family says.
// Kept: the clause has 1 for each odd number, also where it is no mode's.
pub fn batches(w: &Numbers) -> u32
    ensures { get_or w.now 40 0 % 2 ≡ 1 → result ≡ 1 }
{
    if number_at(w, MODE) % 2 == 1 {
        1
    } else {
        get(w, LENGTH)
    }
}

// A batch: how many requests, how much space its answers get, and by what its bytes are cut.
fn set_batch(w: &mut Numbers, count: u32, area: u32, cut: u32) {
    put(w, COUNT, count);
    put(w, AREA, area);
    put(w, CUT, cut);
}

// The space for so many answers with a page.
fn whole_area(n: u32) -> u32
    ensures { result ≡ n % 16 * 265 }
{
    n % 16 * PAGE_ANSWER
}

// The requests of the j-th batch of the list, how much space its answers get and by what it is cut: by the list's number, where each space
// or each cut is tried. Answers how many requests.
pub fn list_batch(w: &mut Numbers, j: u32) -> u32
    ensures { result ≡ get_or w.new 28 0 }
{
    let n = get(w, LENGTH);
    let tried = get(w, NUMBER) / 125;
    match Mode::from(get(w, MODE)) {
        Mode::Each => list_one(w, j),
        Mode::All => list_all(w, n, whole_area(n), 0),
        Mode::Drawn => list_drawn(w),
        Mode::Cut => list_all(w, n, whole_area(n), tried),
        Mode::Back => list_back(w),
        Mode::Space => list_all(w, n, tried, 0),
    }
    number_at(w, COUNT)
}

// The j-th letter by itself.
fn list_one(w: &mut Numbers, j: u32) {
    put_letter(w, 0, j);
    set_batch(w, 1, PAGE_ANSWER + 3, 0);
}

// All letters of the list.
fn list_all(w: &mut Numbers, n: u32, area: u32, cut: u32) {
    for k in 0..n {
        put_letter(w, k, k);
    }
    set_batch(w, n, area, cut);
}

// Up to 8 requests; one batch of eight is cut anywhere, and in one of six the answers have any space.
fn list_drawn(w: &mut Numbers) {
    let n = plus(draw(w, SEED, 8), 1);
    for k in 0..n {
        let r = drawn(w);
        put_ordered(w, k, r);
    }
    let cut = one_of(w, 8, 65536).unwrap_or(0);
    let area = one_of(w, 6, 700).unwrap_or(whole_area(n));
    set_batch(w, n, area, cut);
}

// In one of so many cases a number below n.
fn one_of(w: &mut Numbers, cases: u32, n: u32) -> Option<u32> {
    let case = draw(w, SEED, cases);
    let some = draw(w, SEED, n);
    (case == 0).then_some(some)
}

// One request of an operator who sets back.
fn list_back(w: &mut Numbers) {
    let r = drawn_back(w);
    put_ordered(w, 0, r);
    set_batch(w, 1, PAGE_ANSWER, 0);
}

// Seven of sixteen revert, six of them to one of the four moments before now, one to a named one; one reclaims to any moment from the
// floor to now.
fn drawn_back(w: &mut Numbers) -> Request {
    let kind = draw(w, SEED, 16);
    let some = draw(w, SEED, 4);
    let row = draw(w, SEED, plus(get(w, NAMES), 1));
    let floor = trial_reference::floor(w);
    let now = trial_reference::now(w);
    let above = draw(w, SEED, plus(minus(now, floor), 1));
    let before = minus(now, plus(some, 1));
    match kind {
        0..=5 => Request::revert(before),
        6 => Request::revert(names::moment_of(w, row)),
        7 => Request::reclaim(plus(floor, above)),
        8..=10 => Request::write(some, some),
        11..=13 => Request::mark(),
        14 => Request::give_name(before, some),
        _ => Request::withdraw_name(some),
    }
}

// Reverts and reclaims are the bulk. One in 64 has a bad operation, a spare bit or a field that its operation does not use.
fn drawn(w: &mut Numbers) -> Request {
    let kind = draw(w, SEED, 64);
    let address = draw(w, SEED, plus(get(w, SIZE), u32::from(kind % 8 == 0)));
    let value = draw(w, SEED, 256);
    let moment = drawn_moment(w, often(kind));
    if kind == 0 {
        return drawn_bad(w, address, moment);
    }
    if get(w, CALLED) != 0 {
        return drawn_naming(w, of_kind(kind, address, value, moment), moment);
    }
    of_kind(kind, address, value, moment)
}

// Where names are drawn, four requests of sixteen give one, one of them at a named moment; two withdraw one; two read or revert at a
// named moment.
fn drawn_naming(w: &mut Numbers, r: Request, moment: u32) -> Request {
    let kind = draw(w, SEED, 16);
    let name = draw(w, SEED, get(w, CALLED));
    let row = draw(w, SEED, plus(get(w, NAMES), 1));
    let named = names::moment_of(w, row);
    match kind {
        0..=2 => Request::give_name(moment, name),
        3 => Request::give_name(named, name),
        4..=5 => Request::withdraw_name(name),
        6 => Request::read(0, named),
        7 => Request::revert(named),
        _ => r,
    }
}

fn often(kind: u32) -> u32 {
    if kind < 20 { 2 } else { 7 }
}

fn of_kind(kind: u32, address: u32, value: u32, moment: u32) -> Request {
    match kind {
        0..=19 => Request::revert(moment),
        20..=34 => Request::reclaim(moment),
        35..=51 => Request::write(address, value),
        52..=57 => Request::mark(),
        _ => Request::read(address, moment),
    }
}

// A moment from one below the floor to two above now; so often of eight times the floor or the moment after it.
fn drawn_moment(w: &mut Numbers, often: u32) -> u32 {
    let floor = trial_reference::floor(w);
    let span = minus(trial_reference::now(w), floor);
    let odds = draw(w, SEED, 8);
    let wide = if odds < often { 2 } else { plus(span, 4) };
    let step = draw(w, SEED, wide);
    let edge = draw(w, SEED, 16);
    if edge == 0 {
        plus(floor, minus(step, 1))
    } else {
        plus(floor, remainder(step, plus(span, 1)))
    }
}

fn drawn_bad(w: &mut Numbers, address: u32, moment: u32) -> Request {
    let operation = draw(w, SEED, 8);
    let bit = draw(w, SEED, 3);
    Request {
        operation,
        address,
        moment,
        value: 0,
        spare: if bit == 0 { 16 } else { 0 },
    }
}

// Reads of every address at a moment, with space for every page. Answers how many.
pub fn list_reads(w: &mut Numbers, moment: u32) -> u32
    ensures { result ≡ get_or w.new 28 0 }
{
    let size = get(w, SIZE);
    for a in 0..size {
        put_request(w, a, Request::read(a, moment));
    }
    set_batch(w, size, whole_area(size), 0);
    number_at(w, COUNT)
}

// One mark, for a batch on a changed store. Answers how many requests that is.
pub fn list_mark(w: &mut Numbers) -> u32
    ensures { result ≡ get_or w.new 28 0 }
{
    put_request(w, 0, Request::mark());
    set_batch(w, 1, PAGE_ANSWER + 3, 0);
    number_at(w, COUNT)
}

// The budget of a copying step: none to four pages, or the largest number. Answers it.
pub fn list_step(w: &mut Numbers) -> u32
    ensures { result ≡ get_or w.new 484 0 }
{
    let n = draw(w, BUDGET_SEED, 6);
    put(w, BUDGET, if n == 5 { LAST } else { n });
    number_at(w, BUDGET)
}

// How many moments lists are asked for: the one below the floor, the one above now, and each readable one, from the floor to now and then
// the named ones.
pub fn moments(w: &Numbers) -> u32
    ensures { (result + get_or w.now 22 0) % 2 ^ 32 ≡ ((get_or w.now 21 0 + get_or w.now 26 0) % 2 ^ 32 + 3) % 2 ^ 32 }
{
    let last = plus(number_at(w, NOW), number_at(w, NAMES));
    minus(plus(last, 3), number_at(w, FLOOR))
}

fn moment_asked(w: &Numbers, j: u32) -> u32 {
    match j {
        0 => minus(trial_reference::floor(w), 1),
        1 => plus(trial_reference::now(w), 1),
        _ => trial_reference::moment_read(w, plus(get(w, FLOOR), minus(j, 2))),
    }
}

// Lists of work orders, from the j-th of the moments on, of 16 at most. Answers how many lists.
pub fn list_orders(w: &mut Numbers, from: u32) -> u32
    ensures { result ≡ get_or w.new 639 0 }
{
    put(w, ASKED, 0);
    for j in from..moments(w).min(from.saturating_add(16)) {
        ask_at(w, moment_asked(w, j));
    }
    number_at(w, ASKED)
}

// At a moment: a list that fits exactly, one with a byte less, and one with one to eight bytes more; at one that is refused only the last.
fn ask_at(w: &mut Numbers, moment: u32) {
    let due = orders::expect(w, moment);
    let fits = get(w, LIST_COUNT) % 32 * 2;
    let more = draw(w, ORDER_SEED, 8);
    if due == 0 {
        ask(w, moment, fits);
        ask(w, moment, minus(fits, 1));
    }
    ask(w, moment, plus(plus(fits, more), 1));
}

// One list more, of at most so many bytes.
fn ask(w: &mut Numbers, moment: u32, bytes: u32) {
    let n = get(w, ASKED);
    put_two(w, asked_at(n), moment, bytes);
    put(w, ASKED, plus(n, 1));
}

// Lists on a changed store: at the moments of its head, at the one above now, at 0 and at that of its first name. Answers how many.
pub fn list_changed(w: &mut Numbers) -> u32
    ensures { result ≡ get_or w.new 639 0 }
{
    let now = get(w, HEAD_NOW);
    let floor = get(w, HEAD_FLOOR);
    let named = get(w, NAME_TABLE + 2);
    put(w, ASKED, 0);
    for moment in [now, floor, plus(now, 1), 0, named] {
        ask_some(w, moment);
    }
    number_at(w, ASKED)
}

// A list of any bytes up to 39.
fn ask_some(w: &mut Numbers, moment: u32) {
    let bytes = draw(w, ORDER_SEED, 40);
    ask(w, moment, bytes);
}

// The next number of the generator, whose state stands at an index: below n.
fn draw(t: &mut Numbers, i: u32, n: u32) -> u32 {
    let s = get(t, i).wrapping_mul(69069).wrapping_add(12345);
    put(t, i, s);
    remainder(s / 65536, n)
}
