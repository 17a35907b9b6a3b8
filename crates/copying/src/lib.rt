// The copying step: stale pages of the live disk are brought to date, lowest address first, and counted.
#![tactic(auto)]

ghost use Rattle.std.specs.Prelude.{◌≡◌, List, ℕ, ◌<◌};
ghost use Rattle.live.specs.Live.{disk_of, brought};
ghost use Rattle.rows.specs.View.{tables, store_of};
ghost use Rattle.copying.specs.Copy.{Stocked, CopiesPages, copy_step_of, Copies};

use live::Copied;
use model::Head;
use rows::Found;

// The page of an address is brought to date: with the page found at now, or as blank, its bytes kept.
fn bring(head: Head, bt: &[u32], rt: &[u32], slab: &[u8], disk: &mut [u8], marks: &mut [u8], a: u32)
    requires { Stocked head bt.now rt.now slab.now (disk_of disk.old marks.old) × (a < head.size) }
    ensures { (pt nt : List ℕ) → disk_of disk.new marks.new ≡ brought (store_of head (tables bt.now rt.now pt nt slab.now)) (disk_of disk.old marks.old) a }
{
    let i = a as usize;
    let found = live_pages::find_now(head, bt, rt, a);
    match found {
        Found::Nothing => {
            marks[i] = 3;
        }
        Found::Row(r) => {
            let at = 256 * (r.place as usize);
            let end = at + 256;
            writing::put_page(disk, i, &slab[at..end]);
            marks[i] = 1;
        }
    }
}

// The stale pages of the lowest addresses, up to the budget, are brought to date; the result is how many these were.
fn copy_pages(
    head: Head,
    bt: &[u32],
    rt: &[u32],
    slab: &[u8],
    disk: &mut [u8],
    marks: &mut [u8],
    budget: u32,
) -> u32
    requires { Stocked head bt.now rt.now slab.now (disk_of disk.old marks.old) }
    ensures { (pt nt : List ℕ) → CopiesPages (store_of head (tables bt.now rt.now pt nt slab.now)) (disk_of disk.old marks.old) budget result (disk_of disk.new marks.new) }
{
    let mut count: u32 = 0;
    for a in 0..head.size {
        if budget <= count {
            return count;
        }
        let mark = marks[a as usize];
        if mark % 2 == 1 {
            continue;
        }
        bring(head, bt, rt, slab, disk, marks, a);
        count += 1;
    }
    count
}

// A copying step on what is lent, whatever it holds. Where the checks refuse, nothing is written.
pub fn copy_step(
    head: Head,
    bt: &[u32],
    rt: &[u32],
    pt: &[u32],
    nt: &[u32],
    slab: &[u8],
    disk: &mut [u8],
    marks: &mut [u8],
    budget: u32,
) -> Copied
    ensures { Copies (copy_step_of head (tables bt.now rt.now pt.now nt.now slab.now) (disk_of disk.old marks.old) budget) (disk_of disk.old marks.old) result (disk_of disk.new marks.new) }
{
    let found = disk_check::check(head, bt, rt, pt, nt, slab, disk, marks);
    let refusal = found.refusal;
    if refusal != 0 {
        return Copied { refusal, count: 0 };
    }
    let count = copy_pages(head, bt, rt, slab, disk, marks, budget);
    Copied { refusal: 0, count }
}
