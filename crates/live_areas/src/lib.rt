// A live read and a copying step on areas of bytes: head and tables are decoded to local arrays of numbers, and only read.
#![tactic(auto)]

ghost use Rattle.std.specs.Prelude.{◌≡◌, true};
ghost use Rattle.live.specs.Live.{disk_of};
ghost use Rattle.rows.specs.View.{tables, number_tables};
ghost use Rattle.tables.specs.Tables.{numbers_in, Room};
ghost use Rattle.areas.specs.Lent.{lent, fits};
ghost use Rattle.live_pages.specs.Read.{live_read_of};
ghost use Rattle.copying.specs.Copy.{copy_step_of, Copies};
ghost use Rattle.live_areas.specs.Live.{live_read_bytes, copy_bytes};

use live::{Copied, Located};
use model::Head;
use tables::{BRANCH_NUMBERS, NAME_NUMBERS, PLACE_NUMBERS, RECORD_NUMBERS};

// A live read on tables of bytes, with room for their numbers.
fn locate_tables(
    head: Head,
    branches: &[u8],
    records: &[u8],
    places: &[u8],
    names: &[u8],
    slab: &[u8],
    disk: &[u8],
    marks: &[u8],
    a: u32,
    bt: &mut [u32],
    rt: &mut [u32],
    pt: &mut [u32],
    nt: &mut [u32],
) -> Located
    requires { Room (number_tables branches.now records.now places.now names.now) (number_tables bt.old rt.old pt.old nt.old) }
    ensures { result ≡ live_read_of head (numbers_in (tables branches.now records.now places.now names.now slab.now)) (disk_of disk.now marks.now) a }
{
    tables::load(branches, records, places, names, bt, rt, pt, nt);
    live_pages::locate(head, bt, rt, pt, nt, slab, disk, marks, a)
}

// A live read on areas of bytes whose lengths fit.
pub fn locate_areas(
    head: &[u8],
    branches: &[u8],
    records: &[u8],
    places: &[u8],
    names: &[u8],
    slab: &[u8],
    disk: &[u8],
    marks: &[u8],
    a: u32,
) -> Located
    requires { fits (lent head.now branches.now records.now places.now names.now slab.now) ≡ true }
    ensures { result ≡ live_read_bytes (lent head.now branches.now records.now places.now names.now slab.now) (disk_of disk.now marks.now) a }
{
    let nb = branches.len() / 4;
    let nr = records.len() / 4;
    let np = places.len() / 4;
    let first = tables::get_head(head);
    let mut bt = tables::room::<BRANCH_NUMBERS>();
    let mut rt = tables::room::<RECORD_NUMBERS>();
    let mut pt = tables::room::<PLACE_NUMBERS>();
    let mut nt = tables::room::<NAME_NUMBERS>();
    locate_tables(
        first,
        branches,
        records,
        places,
        names,
        slab,
        disk,
        marks,
        a,
        &mut bt[..nb],
        &mut rt[..nr],
        &mut pt[..np],
        &mut nt,
    )
}

// A copying step on tables of bytes, with room for their numbers.
fn step_tables(
    head: Head,
    branches: &[u8],
    records: &[u8],
    places: &[u8],
    names: &[u8],
    slab: &[u8],
    disk: &mut [u8],
    marks: &mut [u8],
    budget: u32,
    bt: &mut [u32],
    rt: &mut [u32],
    pt: &mut [u32],
    nt: &mut [u32],
) -> Copied
    requires { Room (number_tables branches.now records.now places.now names.now) (number_tables bt.old rt.old pt.old nt.old) }
    ensures { Copies (copy_step_of head (numbers_in (tables branches.now records.now places.now names.now slab.now)) (disk_of disk.old marks.old) budget) (disk_of disk.old marks.old) result (disk_of disk.new marks.new) }
{
    tables::load(branches, records, places, names, bt, rt, pt, nt);
    copying::copy_step(head, bt, rt, pt, nt, slab, disk, marks, budget)
}

// A copying step on areas of bytes whose lengths fit.
pub fn step_areas(
    head: &[u8],
    branches: &[u8],
    records: &[u8],
    places: &[u8],
    names: &[u8],
    slab: &[u8],
    disk: &mut [u8],
    marks: &mut [u8],
    budget: u32,
) -> Copied
    requires { fits (lent head.now branches.now records.now places.now names.now slab.now) ≡ true }
    ensures { Copies (copy_bytes (lent head.now branches.now records.now places.now names.now slab.now) (disk_of disk.old marks.old) budget) (disk_of disk.old marks.old) result (disk_of disk.new marks.new) }
{
    let nb = branches.len() / 4;
    let nr = records.len() / 4;
    let np = places.len() / 4;
    let first = tables::get_head(head);
    let mut bt = tables::room::<BRANCH_NUMBERS>();
    let mut rt = tables::room::<RECORD_NUMBERS>();
    let mut pt = tables::room::<PLACE_NUMBERS>();
    let mut nt = tables::room::<NAME_NUMBERS>();
    step_tables(
        first,
        branches,
        records,
        places,
        names,
        slab,
        disk,
        marks,
        budget,
        &mut bt[..nb],
        &mut rt[..nr],
        &mut pt[..np],
        &mut nt,
    )
}
