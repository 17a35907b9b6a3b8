// The lookup: the record that an address has at a moment.
#![tactic(auto)]

ghost use Rattle.std.specs.Prelude.{◌≡◌, take};
ghost use Rattle.model.specs.ByNumber.{Asc, Falls, find, newest_of};
ghost use Rattle.rows.specs.Rows.{branch_rows_of, record_rows_of, BranchesIn, RecordsIn};
ghost use Rattle.lookup.specs.Order.{up_to};
ghost use Rattle.rows.specs.View.{found_of};

use rows::Found;

// How many of the first n records stand up to (a, t), itself included.
// Kept: the library's search is of a slice's elements; a row is three numbers of a flat table, as the C interface lends it.
pub fn up_to(rt: &[u32], n: usize, a: u32, t: u32) -> usize
    requires records_in { RecordsIn n rt.now }
    requires asc { Asc (take n (record_rows_of rt.now)) }
    ensures { result ≡ up_to a t (take n (record_rows_of rt.now)) }
{
    let mut lo: usize = 0;
    let mut hi = n;
    while lo < hi {
        let mid = lo + (hi - lo) / 2;
        let r = rows::record_at(rt, mid);
        if a < r.address {
            hi = mid;
        } else if r.address < a {
            lo = mid + 1;
        } else if t < r.moment {
            hi = mid;
        } else {
            lo = mid + 1;
        }
    }
    lo
}

// The record that the address a has at a moment, of nb branches and nr records: Figure 1.
// Kept: labelled nested loops, rows outside, records inside, which break out with the record, are the form that document 01 names here.
pub fn find_record(bt: &[u32], nb: usize, rt: &[u32], nr: usize, a: u32, when: u32) -> Found
    requires branches_in { BranchesIn nb bt.now × RecordsIn nr rt.now }
    requires asc { Asc (take nr (record_rows_of rt.now)) }
    requires falls { Falls (newest_of (branch_rows_of bt.now) nb) }
    ensures { found_of result ≡ find (take nr (record_rows_of rt.now)) a (newest_of (branch_rows_of bt.now) nb) when }
{
    let mut j = up_to(rt, nr, a, when);
    let mut i = nb;
    let mut t = when;
    let found = 'rows: loop {
        if i == 0 {
            break 'rows Found::Nothing;
        }
        i -= 1;
        let b = rows::branch_at(bt, i);
        if t < b.start {
            continue 'rows;
        }
        if b.end < t {
            continue 'rows;
        }
        'recs: while 0 < j {
            let r = rows::record_at(rt, j - 1);
            if r.address != a {
                break 'recs;
            }
            if r.moment <= t {
                if b.start <= r.moment {
                    break 'rows Found::Row(r);
                }
                break 'recs;
            }
            j -= 1;
        }
        t = b.cut;
    };
    found
}
