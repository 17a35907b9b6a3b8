// A batch on areas of bytes: head and tables are decoded to local arrays of numbers, and encoded back.
#![tactic(auto)]

ghost use Rattle.std.specs.Prelude.{◌≡◌, true};
ghost use Rattle.live.specs.Live.{disk_of};
ghost use Rattle.areas.specs.Lent.{lent, fits};
ghost use Rattle.batch_areas.specs.Batch.{batch_left, BatchDone};

use batch::Batched;
use batch_tables::Tried;
use tables::{BRANCH_NUMBERS, NAME_NUMBERS, PLACE_NUMBERS, RECORD_NUMBERS};

// A batch on areas of bytes whose lengths fit; a refusal writes nothing.
pub fn batch_areas(
    head: &mut [u8],
    branches: &mut [u8],
    records: &mut [u8],
    places: &mut [u8],
    names: &mut [u8],
    slab: &mut [u8],
    disk: &mut [u8],
    marks: &mut [u8],
    batch: &[u8],
    answers: &mut [u8],
) -> Batched
    requires { fits (lent head.old branches.old records.old places.old names.old slab.old) ≡ true }
    ensures { BatchDone (lent head.old branches.old records.old places.old names.old slab.old) (disk_of disk.old marks.old) batch.now answers.old (batch_left result.done.stop result.done.answered result.done.taken result.done.sent result.rows (lent head.new branches.new records.new places.new names.new slab.new) (disk_of disk.new marks.new) answers.new) }
{
    let nb = branches.len() / 4;
    let nr = records.len() / 4;
    let np = places.len() / 4;
    let first = tables::get_head(head);
    let mut bt = tables::room::<BRANCH_NUMBERS>();
    let mut rt = tables::room::<RECORD_NUMBERS>();
    let mut pt = tables::room::<PLACE_NUMBERS>();
    let mut nt = tables::room::<NAME_NUMBERS>();
    let tried = batch_tables::batch_tables(
        first,
        branches,
        records,
        places,
        names,
        slab,
        disk,
        marks,
        batch,
        answers,
        &mut bt[..nb],
        &mut rt[..nr],
        &mut pt[..np],
        &mut nt,
    );
    match tried {
        Tried::Refused(found) => {
            let done = batch::report(first, found.refusal, 0, 0, 0);
            let rows = found.rows;
            Batched { done, rows }
        }
        Tried::Served(served) => {
            let last = served.done.head;
            tables::put_head(head, last);
            served
        }
    }
}
