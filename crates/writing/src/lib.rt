// The write: a page at (address, now).
#![tactic(auto)]

ghost use Rattle.std.specs.Prelude.{◌≡◌, map, ◌++◌, ℕ, suc, ◌+◌, ◌*◌, ◌≤◌, ◌<◌, length, get_or, take, drop};
ghost use Rattle.std.proofs.Math.Option.{none};
ghost use Rattle.model.specs.Store.{with_page};
ghost use Rattle.model.specs.Lookup.{latest};
ghost use Rattle.model.specs.ByNumber.{Asc};
ghost use Rattle.model.specs.Wire.{write};
ghost use Rattle.model.specs.Step.{first_free, shifted, put_in, written};
ghost use Rattle.rows.specs.Rows.{record_rows_of, RecordsLaid, RecordsIn};
ghost use Rattle.rows.specs.View.{Tables, with_records, with_places, with_slab, store_of, found_of, Leaves, Carried};
ghost use Rattle.lookup.specs.Order.{up_to};
ghost use Rattle.writing.specs.Free.{free_of, NoneBelow};
ghost use Rattle.writing.specs.Writable.{Room, Writable, Slot};

use model::{Head, Record};
use rows::{Found, Outcome};

// The free place with the smallest number; no place below `from` is free.
#[tactic(auto, using(crate::proofs::Laws::free_at, crate::proofs::Laws::free_none))]
fn first_free(pt: &[u32], from: usize) -> Option<usize>
    requires { NoneBelow from pt.now }
    ensures { free_of result ≡ first_free pt.now }
{
    for i in from..pt.len() {
        if pt[i] == 0 {
            return Some(i);
        }
    }
    None
}

// A place row after a record row was put in at a row.
fn moved(at: u32, k: u32) -> u32
    requires { k < 4294967295 }
    ensures { result ≡ shifted at k }
{
    if k <= at {
        return k;
    }
    k + 1
}

// All place rows after a record row was put in at a row.
fn shift_places(pt: &mut [u32], at: u32)
    requires { (k : ℕ) → get_or pt.old k 0 < 4294967295 }
    ensures { pt.new ≡ map (shifted at) pt.old }
{
    for k in pt.iter_mut() {
        *k = moved(at, *k);
    }
}

// A record is put in at a row of the first n: the rows from there on move by one.
fn insert_row(rt: &mut [u32], n: usize, at: usize, r: Record)
    requires { (at ≤ n) × RecordsIn (suc n) rt.old }
    ensures { RecordsLaid rt.old (put_in at r (take n (record_rows_of rt.old)) ++ drop (n + 1) (record_rows_of rt.old)) rt.new }
{
    for k in (at..n).rev() {
        let x = rows::record_at(rt, k);
        rows::set_record(rt, k + 1, x);
    }
    rows::set_record(rt, at, r);
}

// A page is put at a place of the slab.
pub fn put_page(slab: &mut [u8], p: usize, page: &[u8])
    requires { (length page.now ≡ 256) × (256 * p + 256 ≤ length slab.old) }
    ensures { slab.new ≡ with_page slab.old p page.now }
{
    // Kept: the library's copy_from_slice calls memmove, which the archive for C would then need from outside.
    let base = 256 * p;
    for i in 0..page.len() {
        slab[base + i] = page[i];
    }
}

// The record that stands at (a, t) already, of n records of which c are up to (a, t); where there is none, c is the row for a new one.
fn standing(rt: &[u32], n: usize, a: u32, t: u32, c: usize) -> Found
    requires records_in { RecordsIn n rt.now × (c ≡ up_to a t (take n (record_rows_of rt.now))) }
    requires asc { Asc (take n (record_rows_of rt.now)) }
    ensures result_value { found_of result ≡ latest (take n (record_rows_of rt.now)) a t t }
    ensures slot { found_of result ≡ none → Slot (take n (record_rows_of rt.now)) a t c }
{
    if 0 < c {
        let q = rows::record_at(rt, c - 1);
        if q.address == a {
            if q.moment == t {
                return Found::Row(q);
            }
        }
    }
    Found::Nothing
}

// A new record for the page, at the row at. The search for a place begins at low, and says where the next one may begin.
fn write_new(
    head: Head,
    rt: &mut [u32],
    pt: &mut [u32],
    slab: &mut [u8],
    a: u32,
    page: &[u8],
    at: usize,
    low: &mut usize,
) -> Outcome
    requires room { Room head rt.old pt.old slab.old }
    requires page_len { (length page.now ≡ 256) × Slot (take head.records (record_rows_of rt.old)) a head.now at }
    requires none_below { NoneBelow low.old pt.old }
    ensures leaves { (t : Tables) → Leaves (written (store_of head (with_slab slab.old (with_places pt.old (with_records rt.old t)))) a page.now none) none (with_slab slab.old (with_places pt.old (with_records rt.old t))) result (with_slab slab.new (with_places pt.new (with_records rt.new t))) }
    ensures none_below_2 { NoneBelow low.new pt.new }
{
    let present = head.now;
    let n = head.records as usize;
    if rows::record_rows(rt) <= n {
        return rows::refused(head, 5);
    }
    let free = first_free(pt, *low);
    let Some(p) = free else {
        *low = pt.len();
        return rows::refused(head, 6);
    };
    let row = at as u32;
    let r = Record {
        address: a,
        moment: present,
        place: p as u32,
    };
    insert_row(rt, n, at, r);
    shift_places(pt, row);
    pt[p] = row + 1;
    *low = p + 1;
    put_page(slab, p, page);
    let after = Head {
        size: head.size,
        branches: head.branches,
        records: head.records + 1,
        now: present,
        floor: head.floor,
        names: head.names,
    };
    rows::accepted(after, present)
}

// The page at (a, now): in the place of the record that stands there, else in the free place with the smallest number. No place below
// low is free, before and after.
pub fn write(
    head: Head,
    rt: &mut [u32],
    pt: &mut [u32],
    slab: &mut [u8],
    a: u32,
    page: &[u8],
    low: &mut usize,
) -> Outcome
    requires writable { Writable head rt.old pt.old slab.old }
    requires page_len { length page.now ≡ 256 }
    requires none_below { NoneBelow low.old pt.old }
    ensures carried { (t : Tables) → Carried head (with_slab slab.old (with_places pt.old (with_records rt.old t))) (write a page.now) result (with_slab slab.new (with_places pt.new (with_records rt.new t))) }
    ensures none_below_2 { NoneBelow low.new pt.new }
{
    let present = head.now;
    if head.size <= a {
        return rows::refused(head, 4);
    }
    let n = head.records as usize;
    let c = lookup::up_to(rt, n, a, present);
    let found = standing(rt, n, a, present, c);
    match found {
        Found::Row(q) => {
            let own = q.place as usize;
            put_page(slab, own, page);
            rows::accepted(head, present)
        }
        Found::Nothing => write_new(head, rt, pt, slab, a, page, c, low),
    }
}
