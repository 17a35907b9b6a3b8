// A batch on tables of bytes: they are decoded to arrays of numbers that are lent, and encoded back.
#![tactic(auto)]

ghost use Rattle.std.specs.Prelude.{◌≡◌, length};
ghost use Rattle.model.specs.Batch.{batch};
ghost use Rattle.live.specs.Live.{disk_of, played};
ghost use Rattle.live.specs.Fit.{Fit};
ghost use Rattle.rows.specs.View.{tables, number_tables, store_of};
ghost use Rattle.disk_check.specs.Check.{live_finding_of};
ghost use Rattle.tables.specs.Tables.{numbers_in, Room};
ghost use Rattle.batch_tables.specs.Tried.{RunSaved, TriedOn};

use batch::{Batched, Done};
use model::Head;
use record_check::Finding;

// What a batch on tables of bytes came to: refused by the checks, or carried out.
#[derive(Clone, Copy)]
pub enum Tried {
    Refused(Finding),
    Served(Batched),
}

// The numbers of the tables, and what the checks find. The areas are only read.
fn load_checked(
    head: Head,
    branches: &[u8],
    records: &[u8],
    places: &[u8],
    names: &[u8],
    slab: &[u8],
    disk: &[u8],
    marks: &[u8],
    bt: &mut [u32],
    rt: &mut [u32],
    pt: &mut [u32],
    nt: &mut [u32],
) -> Finding
    requires { Room (number_tables branches.now records.now places.now names.now) (number_tables bt.old rt.old pt.old nt.old) }
    ensures value { result ≡ live_finding_of head (numbers_in (tables branches.now records.now places.now names.now slab.now)) (disk_of disk.now marks.now) }
    ensures nt_after { number_tables bt.new rt.new pt.new nt.new ≡ numbers_in (number_tables branches.now records.now places.now names.now) }
{
    tables::load(branches, records, places, names, bt, rt, pt, nt);
    disk_check::check(head, bt, rt, pt, nt, slab, disk, marks)
}

// A batch on sound tables, which are those of the areas, and then written there.
fn run_saved(
    head: Head,
    branches: &mut [u8],
    records: &mut [u8],
    places: &mut [u8],
    names: &mut [u8],
    slab: &mut [u8],
    disk: &mut [u8],
    marks: &mut [u8],
    input: &[u8],
    answers: &mut [u8],
    bt: &mut [u32],
    rt: &mut [u32],
    pt: &mut [u32],
    nt: &mut [u32],
) -> Done
    requires room { Room (number_tables branches.old records.old places.old names.old) (number_tables bt.old rt.old pt.old nt.old) }
    requires nt_value { number_tables bt.old rt.old pt.old nt.old ≡ numbers_in (number_tables branches.old records.old places.old names.old) }
    requires fit { Fit (store_of head (tables bt.old rt.old pt.old nt.old slab.old)) (disk_of disk.old marks.old) }
    ensures run_saved { RunSaved (batch (store_of head (numbers_in (tables branches.old records.old places.old names.old slab.old))) input.now (length answers.old)) (tables branches.old records.old places.old names.old slab.old) answers.old result (tables branches.new records.new places.new names.new slab.new) answers.new }
    ensures marks_after { disk_of disk.new marks.new ≡ played (disk_of disk.old marks.old) (batch (store_of head (numbers_in (tables branches.old records.old places.old names.old slab.old))) input.now (length answers.old)).log }
{
    let done = batch::run(head, bt, rt, pt, nt, slab, disk, marks, input, answers);
    tables::save(bt, rt, pt, nt, branches, records, places, names);
    done
}

// A batch on tables of bytes, with room for their numbers; a refusal writes nothing.
pub fn batch_tables(
    head: Head,
    branches: &mut [u8],
    records: &mut [u8],
    places: &mut [u8],
    names: &mut [u8],
    slab: &mut [u8],
    disk: &mut [u8],
    marks: &mut [u8],
    batch: &[u8],
    answers: &mut [u8],
    bt: &mut [u32],
    rt: &mut [u32],
    pt: &mut [u32],
    nt: &mut [u32],
) -> Tried
    requires { Room (number_tables branches.old records.old places.old names.old) (number_tables bt.old rt.old pt.old nt.old) }
    ensures { TriedOn head (tables branches.old records.old places.old names.old slab.old) (disk_of disk.old marks.old) batch.now answers.old result (tables branches.new records.new places.new names.new slab.new) (disk_of disk.new marks.new) answers.new }
{
    let found = load_checked(
        head, branches, records, places, names, slab, disk, marks, bt, rt, pt, nt,
    );
    if found.refusal != 0 {
        return Tried::Refused(found);
    }
    let done = run_saved(
        head, branches, records, places, names, slab, disk, marks, batch, answers, bt, rt, pt, nt,
    );
    let rows = found.rows;
    Tried::Served(Batched { done, rows })
}
