// A list of work orders: from the branch of a moment up to and with the first row.
#![tactic(auto)]

ghost use Rattle.std.specs.Prelude.{◌≡◌, ◌+◌, ◌*◌, ◌≤◌, length};
ghost use Rattle.std.proofs.lemmas.List.Edits.{sets};
ghost use Rattle.model.specs.Wire.{bytes};
ghost use Rattle.model.specs.ByNumber.{newest_of};
ghost use Rattle.rows.specs.Rows.{branch_rows_of, BranchesIn};
ghost use Rattle.rows.specs.View.{tables};
ghost use Rattle.work_orders.specs.Orders.{orders_in, listed_in};
ghost use Rattle.listing.specs.Lists.{listing_of, Lists};

use model::Head;
use work_orders::Listed;

// How many work orders a moment has, of the first n branches.
fn count_orders(bt: &[u32], n: usize, when: u32) -> usize
    requires { BranchesIn n bt.now }
    ensures { result ≡ length (orders_in (newest_of (branch_rows_of bt.now) n) when) }
{
    let mut t = when;
    let mut count: usize = 0;
    for i in (0..n).rev() {
        let b = rows::branch_at(bt, i);
        if t < b.start {
            continue;
        }
        if b.end < t {
            continue;
        }
        count += 1;
        t = b.cut;
    }
    count
}

// The work order k of a list: two bytes, high byte first.
fn put_order(list: &mut [u8], k: usize, w: u32)
    requires { k * 2 + 2 ≤ length list.old }
    ensures { list.new ≡ sets list.old (k * 2) (bytes 2 w) }
{
    let at = k * 2;
    let [_, _, high, low] = w.to_be_bytes();
    list[at] = high;
    list[at + 1] = low;
}

// The work orders of a moment, of the first n branches, to the front of the list.
fn put_orders(bt: &[u32], n: usize, when: u32, list: &mut [u8])
    requires branches_in { BranchesIn n bt.now }
    requires when_in_bounds { 2 * length (orders_in (newest_of (branch_rows_of bt.now) n) when) ≤ length list.old }
    ensures { list.new ≡ listed_in (orders_in (newest_of (branch_rows_of bt.now) n) when) list.old }
{
    let mut t = when;
    let mut k: usize = 0;
    for i in (0..n).rev() {
        let b = rows::branch_at(bt, i);
        if t < b.start {
            continue;
        }
        if b.end < t {
            continue;
        }
        put_order(list, k, b.order);
        k += 1;
        t = b.cut;
    }
}

// The work orders of a moment, listed, with the checks; a refusal writes nothing.
pub fn list_orders(
    head: Head,
    bt: &[u32],
    rt: &[u32],
    pt: &[u32],
    nt: &[u32],
    slab: &[u8],
    moment: u32,
    list: &mut [u8],
) -> Listed
    ensures { Lists (listing_of head (tables bt.now rt.now pt.now nt.now slab.now) moment list.old) result list.new }
{
    let found = soundness::check(head, bt, rt, pt, nt, slab);
    let refusal = found.refusal;
    if refusal != 0 {
        return Listed { refusal, count: 0 };
    }
    let below = !naming::readable(head, nt, moment);
    if below {
        return Listed {
            refusal: 8,
            count: 0,
        };
    }
    if head.now < moment {
        return Listed {
            refusal: 9,
            count: 0,
        };
    }
    let n = head.branches as usize;
    let count = count_orders(bt, n, moment);
    if list.len() / 2 < count {
        return Listed {
            refusal: 14,
            count: 0,
        };
    }
    put_orders(bt, n, moment, list);
    Listed { refusal: 0, count }
}
