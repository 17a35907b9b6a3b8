// The checks that every call makes: those of the tables, then 18, that of the live disk.
#![tactic(auto)]

ghost use Rattle.std.specs.Prelude.{◌≡◌, max};
ghost use Rattle.live.specs.Live.{disk_of, marks_small, disk_check};
ghost use Rattle.rows.specs.View.{tables};
ghost use Rattle.disk_check.specs.Check.{live_finding_of};

use model::Head;
use record_check::Finding;

// Whether no mark is above 3: the largest of all is found, with no early end, so that the compiler takes many at a time.
#[tactic(auto, using(crate::proofs::Marks::small_next, crate::proofs::Marks::small_end))]
fn marks_small(marks: &[u8]) -> bool
    ensures { result ≡ marks_small marks.now }
{
    let mut most: u8 = 0;
    for m in marks {
        most = most.max(*m);
    }
    most <= 3
}

// 18, or 0 where disk and marks are those of a volume of so many pages.
#[tactic(auto, unfolding(live::specs::Live::disk_check))]
fn disk_check(size: u32, disk: &[u8], marks: &[u8]) -> u32
    ensures { result ≡ disk_check size (disk_of disk.now marks.now) }
{
    let pages = size as usize;
    if disk.len() == 256 * pages && marks.len() == pages && marks_small(marks) {
        0
    } else {
        18
    }
}

// The table checks, then 18.
#[tactic(auto, unfolding(crate::specs::Check::live_check_of))]
pub fn check(
    head: Head,
    bt: &[u32],
    rt: &[u32],
    pt: &[u32],
    nt: &[u32],
    slab: &[u8],
    disk: &[u8],
    marks: &[u8],
) -> Finding
    ensures { result ≡ live_finding_of head (tables bt.now rt.now pt.now nt.now slab.now) (disk_of disk.now marks.now) }
{
    let found = soundness::check(head, bt, rt, pt, nt, slab);
    if found.refusal != 0 {
        return found;
    }
    let refusal = disk_check(head.size, disk, marks);
    let rows = found.rows;
    Finding { refusal, rows }
}
