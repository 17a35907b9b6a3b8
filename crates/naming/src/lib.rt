// Names: where one stands, which moments are named, and the two requests on them.
#![tactic(auto)]

ghost use Rattle.std.specs.Prelude.{◌≡◌, ◌+◌, ◌≤◌, eqb, take, drop};
ghost use Rattle.model.specs.Store.{moments, is_called, any};
ghost use Rattle.model.specs.Lookup.{readable as can_read};
ghost use Rattle.model.specs.Wire.{give, withdraw};
ghost use Rattle.rows.specs.Rows.{name_rows_of, NamesIn};
ghost use Rattle.rows.specs.View.{Tables, with_names, store_of, Carried};
ghost use Rattle.naming.specs.Naming.{index_of, with_count, ClosedNames};

use model::{Head, Name};
use rows::{Outcome, ZERO_NAME};

// Whether a row has the name.
#[tactic(auto, unfolding(model::specs::Store::is_called))]
fn is_called(x: Name, high: u32, low: u32) -> bool
    ensures { result ≡ is_called high low x }
{
    x.high == high && x.low == low
}

// The first row from `from` on, of the first n, that has the name; n where there is none.
#[tactic(auto, using(crate::proofs::Search::index_hit, crate::proofs::Search::index_miss, crate::proofs::Search::index_none))]
fn find_name(nt: &[u32], from: usize, n: usize, high: u32, low: u32) -> usize
    requires { (from ≤ n) × NamesIn n nt.now }
    ensures { result ≡ from + index_of high low (drop from (take n (name_rows_of nt.now))) }
{
    for i in from..n {
        let x = rows::name_at(nt, i);
        if is_called(x, high, low) {
            return i;
        }
    }
    n
}

// Whether a row from `from` on, of the first n, has the name.
#[tactic(auto, using(crate::proofs::Search::any_index))]
pub fn is_given(nt: &[u32], from: usize, n: usize, high: u32, low: u32) -> bool
    requires { (from ≤ n) × NamesIn n nt.now }
    ensures { result ≡ any (is_called high low) (drop from (take n (name_rows_of nt.now))) }
{
    find_name(nt, from, n, high, low) < n
}

// Whether one of the first n names stands for the moment.
fn is_named(nt: &[u32], n: usize, m: u32) -> bool
    requires { NamesIn n nt.now }
    ensures { result ≡ any (λ t. eqb t m) (moments (take n (name_rows_of nt.now))) }
{
    for i in 0..n {
        let x = rows::name_at(nt, i);
        if x.moment == m {
            return true;
        }
    }
    false
}

// Whether a moment up to now can be read: it is not below the floor, or it is named.
#[tactic(auto, unfolding(model::specs::Lookup::is_readable, model::specs::Store::names))]
pub fn readable(head: Head, nt: &[u32], m: u32) -> bool
    requires { NamesIn head.names nt.now }
    ensures { (t : Tables) → result ≡ can_read (store_of head (with_names nt.now t)) m }
{
    head.floor <= m || is_named(nt, head.names as usize, m)
}

// The head with another count of names.
fn with_names(head: Head, count: u32) -> Head
    ensures { result ≡ with_count head count }
{
    Head {
        names: count,
        ..head
    }
}

// Gives a sealed, readable moment a name.
pub fn give(head: Head, nt: &mut [u32], n: Name) -> Outcome
    requires { (head.names ≤ 32) × NamesIn 32 nt.old }
    ensures { (t : Tables) → Carried head (with_names nt.old t) (give n) result (with_names nt.new t) }
{
    let ok = readable(head, nt, n.moment);
    if !ok {
        return rows::refused(head, 8);
    }
    if head.now <= n.moment {
        return rows::refused(head, 9);
    }
    let k = head.names as usize;
    let twice = is_given(nt, 0, k, n.high, n.low);
    if twice {
        return rows::refused(head, 15);
    }
    if 32 <= k {
        return rows::refused(head, 16);
    }
    rows::set_name(nt, k, n);
    rows::accepted(with_names(head, head.names + 1), n.moment)
}

// The first n names without this one close up, and the rows they leave become zero; how many are left.
fn close_names(nt: &mut [u32], n: usize, high: u32, low: u32) -> usize
    requires { NamesIn n nt.old }
    ensures { ClosedNames high low n nt.old nt.new result }
{
    let mut w: usize = 0;
    for i in 0..n {
        let x = rows::name_at(nt, i);
        rows::set_name(nt, i, ZERO_NAME);
        if !is_called(x, high, low) {
            rows::set_name(nt, w, x);
            w += 1;
        }
    }
    w
}

// Withdraws a name.
pub fn withdraw(head: Head, nt: &mut [u32], high: u32, low: u32) -> Outcome
    requires { (head.names ≤ 32) × NamesIn 32 nt.old }
    ensures { (t : Tables) → Carried head (with_names nt.old t) (withdraw high low) result (with_names nt.new t) }
{
    let k = head.names as usize;
    let at = find_name(nt, 0, k, high, low);
    if k <= at {
        return rows::refused(head, 17);
    }
    let x = rows::name_at(nt, at);
    let left = close_names(nt, k, high, low);
    rows::accepted(with_names(head, left as u32), x.moment)
}
