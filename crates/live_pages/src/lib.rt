// A live read: where the page of an address lies, and that page, handed out as a part of the live disk or of the stored pages.
#![tactic(auto)]

ghost use Rattle.std.specs.Prelude.{◌≡◌, List, ℕ, ◌<◌, length};
ghost use Rattle.live.specs.Live.{disk_of, found_now, spot_of};
ghost use Rattle.rows.specs.View.{Tables, tables, with_branches, with_records, store_of, found_of};
ghost use Rattle.disk_check.specs.Check.{live_of};
ghost use Rattle.live_pages.specs.Read.{Searchable, live_read_of, Hands, LiesAt};

use live::{Located, Spot};
use model::Head;
use rows::Found;

// The record that an address has at now.
pub fn find_now(head: Head, bt: &[u32], rt: &[u32], a: u32) -> Found
    requires { Searchable head bt.now rt.now }
    ensures { (t : Tables) → found_of result ≡ found_now (store_of head (with_records rt.now (with_branches bt.now t))) a }
{
    let nb = head.branches as usize;
    let nr = head.records as usize;
    lookup::find_record(bt, nb, rt, nr, a, head.now)
}

// Where the page of an address lies: on the disk if it is current, else in the slab.
fn spot_of(head: Head, bt: &[u32], rt: &[u32], marks: &[u8], a: u32) -> Spot
    requires { Searchable head bt.now rt.now × (a < length marks.now) }
    ensures { (t : Tables) (bytes : List ℕ) → result ≡ spot_of (live_of head (with_records rt.now (with_branches bt.now t)) (disk_of bytes marks.now)) a }
{
    let i = a as usize;
    let mark = marks[i];
    if mark % 2 == 1 {
        if 2 <= mark {
            return Spot::Nowhere;
        }
        return Spot::OnDisk(256 * i);
    }
    let found = find_now(head, bt, rt, a);
    match found {
        Found::Nothing => Spot::Nowhere,
        Found::Row(r) => Spot::InSlab(256 * (r.place as usize)),
    }
}

// Where a live read's page lies, with the checks.
pub fn locate(
    head: Head,
    bt: &[u32],
    rt: &[u32],
    pt: &[u32],
    nt: &[u32],
    slab: &[u8],
    disk: &[u8],
    marks: &[u8],
    a: u32,
) -> Located
    ensures { result ≡ live_read_of head (tables bt.now rt.now pt.now nt.now slab.now) (disk_of disk.now marks.now) a }
{
    let found = disk_check::check(head, bt, rt, pt, nt, slab, disk, marks);
    let refusal = found.refusal;
    if refusal != 0 {
        return Located {
            refusal,
            spot: Spot::Nowhere,
        };
    }
    if head.size <= a {
        return Located {
            refusal: 4,
            spot: Spot::Nowhere,
        };
    }
    let spot = spot_of(head, bt, rt, marks, a);
    Located { refusal: 0, spot }
}

// A live read: the page is handed out as a part of the live disk or of the stored pages, empty where there is none.
pub fn live_read<'a>(
    head: Head,
    bt: &[u32],
    rt: &[u32],
    pt: &[u32],
    nt: &[u32],
    slab: &'a [u8],
    disk: &'a [u8],
    marks: &[u8],
    a: u32,
    refusal: &mut u32,
) -> &'a [u8]
    ensures hands { Hands (live_read_of head (tables bt.now rt.now pt.now nt.now slab.now) (disk_of disk.now marks.now) a) disk.now slab.now result.now refusal.new }
    ensures lies_at { LiesAt (live_read_of head (tables bt.now rt.now pt.now nt.now slab.now) (disk_of disk.now marks.now) a).spot result.ref_ptr disk.entry.ref_ptr slab.entry.ref_ptr }
{
    let located = locate(head, bt, rt, pt, nt, slab, disk, marks, a);
    *refusal = located.refusal;
    let spot = located.spot;
    match spot {
        Spot::Nowhere => &disk[..0],
        Spot::OnDisk(at) => {
            let end = at + 256;
            &disk[at..end]
        }
        Spot::InSlab(from) => {
            let end = from + 256;
            &slab[from..end]
        }
    }
}
