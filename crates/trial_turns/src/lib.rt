// The turns of a family of lists: a fresh store, or a batch, or live reads and a copying step, or lists of work orders, with the comparison
// after them. What the next turn does is one of the numbers.
#![tactic(auto)]

ghost use Rattle.std.specs.Prelude.{◌≡◌, get_or};

use trial_calls::calls;
use trial_faults::turns::Turn;
use trial_faults::{changes, faults, live, rows};
use trial_judge::{judge, live as judge_live, orders as judge_orders};
use trial_lists::{encoding, lists};
use trial_words::layout::{
    BASE, BATCH, BATCHES, Bytes, CHANGE, DIFFER, DUE, FAULTY, FLOOR, HEAD_NOW, LETTERS, LISTS,
    NAMES, NOW, NUMBER, Numbers, READ, RUN, SNAPSHOT, TURN, WRONG,
};
use trial_words::words::{add, get, number_at, plus, put, put_two};

// All lists of the family. Answers how many differ, of this family and those that count with it.
pub fn family(w: &mut Numbers) -> u32
    ensures { result ≡ get_or w.new 50 0 }
{
    let mut b: Bytes = [0; 12288];
    open(w, 0);
    all_turns(w, &mut b);
    number_at(w, DIFFER)
}

// Kept: a count of turns in place of a `loop`, since each loop has to be proved to end.
fn all_turns(w: &mut Numbers, b: &mut Bytes) {
    for _ in 0..u32::MAX {
        let turn = Turn::next(w);
        if turn == Turn::Ended {
            return;
        }
        take_turn(w, b, turn);
    }
}

// One function for each turn.
fn take_turn(w: &mut Numbers, b: &mut Bytes, turn: Turn) {
    match turn {
        Turn::Fresh => begin(w, b),
        Turn::Play => play(w, b),
        Turn::ReadBack => read_back(w, b),
        Turn::Changed => try_change(w, b),
        Turn::Live => look(w, b),
        Turn::LiveRefused => look_refused(w, b),
        Turn::Orders => list(w, b),
        Turn::OrdersChanged => list_changed(w, b),
        Turn::Ended => {}
    }
}

// What the next turn does.
fn turn_to(w: &mut Numbers, turn: Turn) {
    put(w, TURN, u32::from(turn));
}

// A fresh store and its reference; the first batch is next. Where moments count from a base, the head starts there. Every page of the live
// disk is stale.
fn begin(w: &mut Numbers, b: &mut Bytes) {
    calls::make(w, b);
    faults::put_in(w, b);
    judge::judge_fresh(w);
    faults::take_out(w, b);
    let base = get(w, BASE);
    put_two(w, HEAD_NOW, base, base);
    trial_reference::reset(w);
    encoding::lay_disk(w, b);
    play_next(w, 0);
}

// After each batch of the list every readable snapshot is read back, from the floor to now and then the named ones; then the work orders of
// each are listed, every page is read live, and a copying step is made. After the last the changes are tried. Where the list has had its
// fault, nothing more of it is tried.
fn play(w: &mut Numbers, b: &mut Bytes) {
    rows::note_before(w);
    lists::list_batch(w, get(w, BATCH));
    encoding::encode(w, b);
    calls::ask(w, b);
    faults::put_in(w, b);
    judge::judge(w, b);
    judge::judge_store(w, b);
    faults::take_out(w, b);
    add(w, BATCHES, 1);
    put(w, SNAPSHOT, get(w, FLOOR));
    turn_to(w, Turn::ReadBack);
}

// A read of every address at the moment of the snapshot.
fn read_back(w: &mut Numbers, b: &mut Bytes) {
    let moment = trial_reference::moment_read(w, get(w, SNAPSHOT));
    add(w, READ, 1);
    lists::list_reads(w, moment);
    encoding::encode(w, b);
    calls::ask(w, b);
    faults::put_in(w, b);
    judge::judge(w, b);
    judge_live::judge_kept(w);
    faults::take_out(w, b);
    next_snapshot(w, get(w, SNAPSHOT));
}

// A batch on a changed store, of which it is known which stop is due.
fn try_change(w: &mut Numbers, b: &mut Bytes) {
    changes::make(w);
    lists::list_mark(w);
    encoding::encode(w, b);
    judge::expect_stop(w);
    calls::ask(w, b);
    faults::put_in(w, b);
    judge::judge_stop(w, b);
    faults::take_out(w, b);
    add(w, BATCHES, 1);
    if get(w, DUE) == 0 {
        turn_to(w, Turn::OrdersChanged);
    } else {
        turn_to(w, Turn::LiveRefused);
    }
}

// Live reads and a copying step.
fn step(w: &mut Numbers, b: &mut Bytes) {
    lists::list_step(w);
    live::note_before(w);
    calls::look(w, b);
}

// They are made on the store after a batch.
fn look(w: &mut Numbers, b: &mut Bytes) {
    step(w, b);
    faults::put_in(w, b);
    judge_live::judge(w, b);
    faults::take_out(w, b);
    next_batch(w, plus(get(w, BATCH), 1));
}

// On a changed store they are refused.
fn look_refused(w: &mut Numbers, b: &mut Bytes) {
    step(w, b);
    faults::put_in(w, b);
    judge_live::judge_refused(w, b);
    faults::take_out(w, b);
    turn_to(w, Turn::OrdersChanged);
}

// Lists of work orders, 16 moments at a time.
fn list(w: &mut Numbers, b: &mut Bytes) {
    lists::list_orders(w, get(w, SNAPSHOT));
    calls::list(w, b);
    faults::put_in(w, b);
    judge_orders::judge(w, b);
    faults::take_out(w, b);
    next_lists(w, plus(get(w, SNAPSHOT), 16));
}

// The lists on a changed store; then the next change is tried.
fn list_changed(w: &mut Numbers, b: &mut Bytes) {
    lists::list_changed(w);
    calls::list(w, b);
    faults::put_in(w, b);
    judge_orders::judge_changed(w, b);
    faults::take_out(w, b);
    changes::undo(w);
    turn_to(w, Turn::Changed);
    next_change(w, plus(get(w, CHANGE), 1));
}

// Whether one more comes before the n-th.
fn goes_on(w: &Numbers, i: u32, n: u32) -> bool {
    get(w, FAULTY) == 0 && i < n
}

fn next_snapshot(w: &mut Numbers, i: u32) {
    if goes_on(w, i, plus(get(w, NOW), get(w, NAMES))) {
        put(w, SNAPSHOT, plus(i, 1));
    } else {
        put(w, SNAPSHOT, 0);
        turn_to(w, Turn::Orders);
    }
}

fn next_lists(w: &mut Numbers, j: u32) {
    if goes_on(w, j, lists::moments(w)) {
        put(w, SNAPSHOT, j);
    } else {
        turn_to(w, Turn::Live);
    }
}

fn play_next(w: &mut Numbers, j: u32) {
    put(w, BATCH, j);
    turn_to(w, Turn::Play);
}

fn next_batch(w: &mut Numbers, j: u32) {
    if goes_on(w, j, lists::batches(w)) {
        play_next(w, j);
    } else {
        turn_to(w, Turn::Changed);
        next_change(w, 0);
    }
}

fn next_change(w: &mut Numbers, k: u32) {
    if goes_on(w, k, changes::count(w)) {
        put(w, CHANGE, k);
    } else {
        close(w);
        next_list(w, plus(get(w, NUMBER), 1));
    }
}

fn next_list(w: &mut Numbers, number: u32) {
    if number < get(w, LISTS) {
        open(w, number);
    } else {
        turn_to(w, Turn::Ended);
    }
}

fn open(w: &mut Numbers, number: u32) {
    let letters = get(w, LETTERS);
    put(w, NUMBER, number);
    lists::spell(w, number, letters);
    add(w, RUN, 1);
    put(w, FAULTY, 0);
    put(w, WRONG, 0);
    turn_to(w, Turn::Fresh);
}

// Whether the list differs.
fn close(w: &mut Numbers) {
    if get(w, WRONG) != 0 {
        add(w, DIFFER, 1);
    }
}
