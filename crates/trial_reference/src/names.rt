// The names of the reference, in the order given. Behind the last row stands one that is zero.
ghost use Rattle.std.specs.Prelude.{◌≡◌, length};

use trial_words::layout::{MOST_NAMES, NAME_ROWS, NAMES, Numbers};
use trial_words::names::{self, Name, name_of, row_at};
use trial_words::words::{get, minus, plus, put, put_two};

// The moment of the k-th name; 0 behind the last.
pub fn moment_of(w: &Numbers, k: u32) -> u32 {
    names::moment_of(w, NAME_ROWS, k)
}

// A name and its moment become the k-th row.
fn put_row(w: &mut Numbers, k: u32, name: Name, moment: u32)
    ensures { length w.new ≡ length w.old }
{
    let row = row_at(NAME_ROWS, k);
    put_two(w, row, name.high, name.low);
    put(w, plus(row, 2), moment);
}

// A fresh store: no name is given.
pub(crate) fn forget_all(w: &mut Numbers)
    ensures { length w.new ≡ length w.old }
{
    for k in 0..33u32 {
        put_row(w, k, Name::default(), 0);
    }
    put(w, NAMES, 0);
}

// The row of a name.
fn find(w: &Numbers, name: Name) -> Option<u32> {
    (0..get(w, NAMES)).find(|k| name_of(w, NAME_ROWS, *k) == name)
}

pub(crate) fn is_given(w: &Numbers, name: Name) -> bool {
    find(w, name).is_some()
}

pub(crate) fn is_named(w: &Numbers, moment: u32) -> bool {
    (0..get(w, NAMES)).any(|k| moment_of(w, k) == moment)
}

// A name more, behind the others. Answers its moment.
pub(crate) fn give(w: &mut Numbers, name: Name, moment: u32) -> u32 {
    let k = get(w, NAMES);
    if k < MOST_NAMES {
        put_row(w, k, name, moment);
        put(w, NAMES, k + 1);
    }
    moment
}

// The rows from one on become those behind them, up to the last.
fn close_up(w: &mut Numbers, from: u32, n: u32) {
    for k in from..n {
        put_row(w, k, name_of(w, NAME_ROWS, k + 1), moment_of(w, k + 1));
    }
}

// A name goes, and those behind it move up. Answers its moment; 0 where it is not given.
pub(crate) fn withdraw(w: &mut Numbers, name: Name) -> u32 {
    let Some(k) = find(w, name) else {
        return 0;
    };
    let n = get(w, NAMES);
    let moment = moment_of(w, k);
    close_up(w, k, n);
    put(w, NAMES, minus(n, 1));
    moment
}
