// The reference: a complete snapshot of the volume for each moment, the held pairs, now, floor and the names; plain, and slow on purpose.
// Beside them it keeps the branch rows, the way of each moment to the first branch, the place of each held pair, and the live disk. Readable
// are the moments from the floor to now and the named ones.
#![tactic(auto)]

pub mod branches;
pub mod live;
pub mod names;
pub mod orders;
pub mod places;
pub mod refusals;

ghost use Rattle.std.specs.Prelude.{◌≡◌, ◌+◌, ◌*◌, ◌%◌, ◌<◌, ◌≤◌, ◌^◌, length, get_or, MatchOption};
ghost use Rattle.trial_reference.specs.Refusal.{number_of};

use refusals::Refusal;
use trial_words::layout::{
    BASE, BELOW, BRANCH_ROWS, BRANCHES, FLOOR, HELD, LAST, MOST_NAMES, NAMES, NOW, Numbers,
    PLACE_ROWS, RECORD_ROWS, SIZE, held_at,
};
use trial_words::names::Name;
use trial_words::request::{Operation, Request};
use trial_words::rules::need;
use trial_words::words::{add, get, minus, number_at, plus, put, put_four, put_two};

// A page of a snapshot: 0 or one more than its byte; then the moment of its write.
fn page_at(i: u32, a: u32) -> u32
    ensures { result ≡ 2048 + i % 256 * 8 + a % 4 * 2 }
{
    2048 + i % 256 * 8 + a % 4 * 2
}

// Whether a readable snapshot has the pair.
fn stays_at(i: u32, a: u32) -> u32 {
    4096 + i % 256 * 4 + a % 4
}

// The present moment, and the floor, as requests name them.
pub fn now(w: &Numbers) -> u32
    ensures { result ≡ (get_or w.now 20 0 + get_or w.now 21 0) % 2 ^ 32 }
{
    plus(number_at(w, BASE), number_at(w, NOW))
}

pub fn floor(w: &Numbers) -> u32
    ensures { result ≡ (get_or w.now 20 0 + get_or w.now 22 0) % 2 ^ 32 }
{
    plus(number_at(w, BASE), number_at(w, FLOOR))
}

// The number of a moment's snapshot.
pub fn index(w: &Numbers, moment: u32) -> u32
    ensures { (result + get_or w.now 20 0) % 2 ^ 32 ≡ moment }
{
    minus(moment, number_at(w, BASE))
}

// The reference of a fresh store.
pub fn reset(w: &mut Numbers)
    ensures { length w.new ≡ length w.old }
{
    put_two(w, NOW, 0, 0);
    put(w, HELD, 0);
    places::free_all(w);
    names::forget_all(w);
    branches::begin(w);
    orders::begin(w);
    live::begin(w);
    clear_row(w, 0);
}

// No pair of a moment is held, and its snapshot has no page.
fn clear_row(w: &mut Numbers, i: u32)
    ensures { length w.new ≡ length w.old }
{
    put_four(w, held_at(i, 0), 0, 0, 0, 0);
    put_four(w, page_at(i, 0), 0, 0, 0, 0);
    put_four(w, page_at(i, 2), 0, 0, 0, 0);
}

// A new snapshot, now+1, as a copy of a snapshot; it becomes the present one. Answers the moment sealed.
fn advance(w: &mut Numbers, from: u32) -> u32 {
    let sealed = now(w);
    let to = plus(get(w, NOW), 1);
    clear_row(w, to);
    copy_pages(w, from, to);
    put(w, NOW, to);
    sealed
}

// The pages of a snapshot become those of another.
fn copy_pages(w: &mut Numbers, from: u32, to: u32) {
    for a in 0..4u32 {
        let code = get(w, page_at(from, a));
        let moment = get(w, plus(page_at(from, a), 1));
        put_two(w, page_at(to, a), code, moment);
    }
}

// A held pair: its place, and the byte of its page.
#[derive(Clone, Copy, PartialEq, Eq)]
pub struct Pair {
    pub place: u32,
    pub byte: u32,
}

// The pair of a snapshot and an address, where it is held.
pub fn held(w: &Numbers, i: u32, a: u32) -> Option<Pair>
    ensures { let code = get_or w.now (1024 + i % 256 * 4 + a % 4) 0 in MatchOption result (code ≡ 0) (λ pair. (pair.place * 512 + pair.byte + 1 ≡ code) × (pair.byte < 512)) }
{
    let code = number_at(w, held_at(i, a)).checked_sub(1)?;
    Some(Pair {
        place: code / 512,
        byte: code % 512,
    })
}

// A pair that was not held before is one more, and takes a place.
fn hold(w: &mut Numbers, i: u32, a: u32, byte: u32) {
    let place = match held(w, i, a) {
        Some(pair) => pair.place,
        None => {
            add(w, HELD, 1);
            places::take(w)
        }
    };
    put(w, held_at(i, a), place % 16 * 512 + byte % 256 + 1);
}

fn write(w: &mut Numbers, a: u32, value: u32) -> u32 {
    let i = get(w, NOW);
    let byte = value % 256;
    hold(w, i, a, byte);
    put_two(w, page_at(i, a), byte + 1, i);
    live::write(w, a, byte);
    now(w)
}

fn mark(w: &mut Numbers) -> u32 {
    orders::go_on(w);
    advance(w, get(w, NOW))
}

fn revert(w: &mut Numbers, moment: u32, order: u32) -> u32 {
    let from = index(w, moment);
    branches::make(w, now(w), moment, order);
    orders::branch_off(w, from, order);
    live::set_back(w);
    advance(w, from)
}

// A held pair stays held exactly if a readable snapshot has its page; then branches go. Answers how many pairs ceased to be held.
fn reclaim(w: &mut Numbers, floor: u32) -> u32 {
    let before = get(w, HELD);
    let end = plus(get(w, NOW), 1);
    put(w, FLOOR, floor);
    see_readable(w, floor, end);
    release_all(w, end);
    branches::settle(w, get(w, BRANCHES));
    minus(before, get(w, HELD))
}

// The pairs of the readable snapshots stay: of those from the floor on, and of the named ones.
fn see_readable(w: &mut Numbers, floor: u32, end: u32) {
    clear_stays(w, end);
    see_all(w, floor, end);
    see_named(w);
}

fn clear_stays(w: &mut Numbers, end: u32) {
    for i in 0..end {
        put_four(w, stays_at(i, 0), 0, 0, 0, 0);
    }
}

fn see_all(w: &mut Numbers, floor: u32, end: u32) {
    for i in floor..end {
        see_pages(w, i);
    }
}

fn see_named(w: &mut Numbers) {
    for k in 0..get(w, NAMES) {
        see_pages(w, index(w, names::moment_of(w, k)));
    }
}

// The pair of each page of a snapshot stays.
fn see_pages(w: &mut Numbers, i: u32) {
    for a in 0..4u32 {
        if get(w, page_at(i, a)) != 0 {
            put(w, stays_at(get(w, plus(page_at(i, a), 1)), a), 1);
        }
    }
}

fn release_all(w: &mut Numbers, end: u32) {
    for i in 0..end {
        release_row(w, i);
    }
}

// The held pairs of a moment that do not stay are held no longer, and their places are free.
fn release_row(w: &mut Numbers, i: u32) {
    for a in 0..4u32 {
        if let Some(pair) = held(w, i, a)
            && get(w, stays_at(i, a)) == 0
        {
            places::give_back(w, pair.place);
            put(w, held_at(i, a), 0);
            put(w, HELD, minus(get(w, HELD), 1));
        }
    }
}

// It is counted where a revert, a read or a naming reaches below the floor.
fn count_below(w: &mut Numbers, operation: Operation, moment: u32) {
    if moment < floor(w) {
        add(w, BELOW + operation as u32, 1);
    }
}

// A request that was answered and not refused. Answers the number due.
pub fn feed(w: &mut Numbers, r: Request) -> u32
    ensures { r.operation ≡ 4 → result ≡ r.moment }
{
    let Ok(operation) = Operation::try_from(r.operation) else {
        return 0;
    };
    count_below(w, operation, r.moment);
    match operation {
        Operation::Write => write(w, r.address, r.value),
        Operation::Mark => mark(w),
        Operation::Revert => revert(w, r.moment, r.address),
        Operation::Read => r.moment,
        Operation::Reclaim => reclaim(w, index(w, r.moment)),
        Operation::GiveName => names::give(w, Name::from(r.value), r.moment),
        Operation::WithdrawName => names::withdraw(w, Name::from(r.value)),
    }
}

// A page that a read gives: its date, and the byte that fills it.
#[derive(Clone, Copy, PartialEq, Eq)]
pub struct DatedPage {
    pub date: u32,
    pub byte: u32,
}

// The page that a read gives; no other request gives one.
pub fn page(w: &Numbers, r: Request) -> Option<DatedPage>
    ensures { r.operation < 4 → result ≡ None }
{
    if r.operation != Operation::Read as u32 {
        return None;
    }
    let i = index(w, r.moment);
    let byte = get(w, page_at(i, r.address)).checked_sub(1)?;
    Some(DatedPage {
        date: date(w, i, r.address),
        byte,
    })
}

// The date of the page at an address of a snapshot: the moment of its write, as requests name it.
pub fn date(w: &Numbers, i: u32, a: u32) -> u32
    ensures { result ≡ (get_or w.now 20 0 + get_or w.now (2048 + i % 256 * 8 + a % 4 * 2 + 1) 0) % 2 ^ 32 }
{
    plus(number_at(w, BASE), number_at(w, page_at(i, a) + 1))
}

// The refusal that is due.
pub fn refusal(w: &Numbers, r: Request) -> Option<Refusal>
    ensures { MatchOption result (Unit {0}) (λ refusal. number_of refusal ≤ 17) }
{
    let operation = Operation::try_from(r.operation).ok()?;
    let allowed = match operation {
        Operation::Write => write_allowed(w, r.address),
        Operation::Mark => need(now(w) != LAST, Refusal::LastMoment),
        Operation::Revert => revert_allowed(w, r.moment),
        Operation::Read => read_allowed(w, r.address, r.moment),
        Operation::Reclaim => reclaim_allowed(w, r.moment),
        Operation::GiveName => give_name_allowed(w, Name::from(r.value), r.moment),
        Operation::WithdrawName => need(names::is_given(w, Name::from(r.value)), Refusal::NotGiven),
    };
    allowed.err()
}

// A pair that is held is written over, and takes no row and no place.
fn write_allowed(w: &Numbers, a: u32) -> Result<(), Refusal> {
    need(a < get(w, SIZE), Refusal::Address)?;
    if held(w, get(w, NOW), a).is_some() {
        return Ok(());
    }
    need(get(w, HELD) < get(w, RECORD_ROWS), Refusal::Records)?;
    need(get(w, HELD) < get(w, PLACE_ROWS), Refusal::Places)
}

// The moment of a snapshot; past now those that are named.
pub fn moment_read(w: &Numbers, i: u32) -> u32 {
    let last = get(w, NOW);
    if i > last {
        names::moment_of(w, minus(i, plus(last, 1)))
    } else {
        plus(get(w, BASE), i)
    }
}

// Whether a moment is not below the floor, or named.
fn readable(w: &Numbers, moment: u32) -> bool {
    moment >= floor(w) || names::is_named(w, moment)
}

// A read reaches a readable moment that is not above now.
fn read_reaches(w: &Numbers, moment: u32) -> Result<(), Refusal> {
    need(readable(w, moment), Refusal::Below)?;
    need(moment <= now(w), Refusal::Above)
}

// A revert, or a naming, reaches a readable moment that is sealed.
fn revert_reaches(w: &Numbers, moment: u32) -> Result<(), Refusal> {
    need(readable(w, moment), Refusal::Below)?;
    need(moment < now(w), Refusal::Above)
}

// A revert seals a moment and takes a branch row.
fn revert_allowed(w: &Numbers, moment: u32) -> Result<(), Refusal> {
    revert_reaches(w, moment)?;
    need(now(w) != LAST, Refusal::LastMoment)?;
    need(get(w, BRANCHES) < get(w, BRANCH_ROWS), Refusal::Branches)
}

fn read_allowed(w: &Numbers, a: u32, moment: u32) -> Result<(), Refusal> {
    need(a < get(w, SIZE), Refusal::Address)?;
    read_reaches(w, moment)
}

// Names do not help here: what is reclaimed goes by the floor.
fn reclaim_allowed(w: &Numbers, moment: u32) -> Result<(), Refusal> {
    need(moment >= floor(w), Refusal::Below)?;
    need(moment <= now(w), Refusal::Above)
}

// A name is given once, and takes a row.
fn give_name_allowed(w: &Numbers, name: Name, moment: u32) -> Result<(), Refusal> {
    revert_reaches(w, moment)?;
    need(!names::is_given(w, name), Refusal::NameGiven)?;
    need(get(w, NAMES) < MOST_NAMES, Refusal::Names)
}
