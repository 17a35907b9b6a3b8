// The entries under their C names: what C links.
#![tactic(auto)]

ghost use Rattle.live.specs.Live.{disk_of};
ghost use Rattle.areas.specs.Lent.{lent};
ghost use Rattle.fresh_areas.specs.Fresh.{fresh_left, FreshDone};
ghost use Rattle.batch_areas.specs.Batch.{batch_left, BatchDone};
ghost use Rattle.copying.specs.Copy.{Copies};
ghost use Rattle.live_areas.specs.Live.{live_read_bytes, copy_bytes};
ghost use Rattle.listing.specs.Lists.{Lists};
ghost use Rattle.listing_areas.specs.Lists.{list_bytes};
ghost use Rattle.kizmoolet.specs.Told.{Tells};

#[unsafe(no_mangle)]
pub extern "C" fn kizmoolet_fresh(
    size: u32,
    head: &mut [u8],
    branches: &mut [u8],
    records: &mut [u8],
    places: &mut [u8],
    names: &mut [u8],
    slab: &[u8],
) -> u32
    ensures { FreshDone size (lent head.old branches.old records.old places.old names.old slab.now) (fresh_left result (lent head.new branches.new records.new places.new names.new slab.now)) }
{
    kizmoolet::kizmoolet_fresh(size, head, branches, records, places, names, slab)
}

#[unsafe(no_mangle)]
pub extern "C" fn kizmoolet_batch(
    head: &mut [u8],
    branches: &mut [u8],
    records: &mut [u8],
    places: &mut [u8],
    names: &mut [u8],
    slab: &mut [u8],
    disk: &mut [u8],
    marks: &mut [u8],
    batch: &[u8],
    answers: &mut [u8],
    answered: &mut u64,
    taken: &mut u64,
    sent: &mut u64,
    rows: &mut u64,
) -> u32
    ensures { BatchDone (lent head.old branches.old records.old places.old names.old slab.old) (disk_of disk.old marks.old) batch.now answers.old (batch_left result answered.new taken.new sent.new rows.new (lent head.new branches.new records.new places.new names.new slab.new) (disk_of disk.new marks.new) answers.new) }
{
    kizmoolet::kizmoolet_batch(
        head, branches, records, places, names, slab, disk, marks, batch, answers, answered, taken,
        sent, rows,
    )
}

#[unsafe(no_mangle)]
pub extern "C" fn kizmoolet_live_read(
    head: &[u8],
    branches: &[u8],
    records: &[u8],
    places: &[u8],
    names: &[u8],
    slab: &[u8],
    disk: &[u8],
    marks: &[u8],
    address: u32,
    area: &mut u32,
    offset: &mut u64,
) -> u32
    ensures { Tells (live_read_bytes (lent head.now branches.now records.now places.now names.now slab.now) (disk_of disk.now marks.now) address) result area.new offset.new }
{
    kizmoolet::kizmoolet_live_read(
        head, branches, records, places, names, slab, disk, marks, address, area, offset,
    )
}

#[unsafe(no_mangle)]
pub extern "C" fn kizmoolet_copy_step(
    head: &[u8],
    branches: &[u8],
    records: &[u8],
    places: &[u8],
    names: &[u8],
    slab: &[u8],
    disk: &mut [u8],
    marks: &mut [u8],
    budget: u32,
    copied: &mut u64,
) -> u32
    ensures { Copies (copy_bytes (lent head.now branches.now records.now places.now names.now slab.now) (disk_of disk.old marks.old) budget) (disk_of disk.old marks.old) (record { refusal = result; count = copied.new }) (disk_of disk.new marks.new) }
{
    kizmoolet::kizmoolet_copy_step(
        head, branches, records, places, names, slab, disk, marks, budget, copied,
    )
}

#[unsafe(no_mangle)]
pub extern "C" fn kizmoolet_work_orders(
    head: &[u8],
    branches: &[u8],
    records: &[u8],
    places: &[u8],
    names: &[u8],
    slab: &[u8],
    moment: u32,
    list: &mut [u8],
    count: &mut u64,
) -> u32
    ensures { Lists (list_bytes (lent head.now branches.now records.now places.now names.now slab.now) moment list.old) (record { refusal = result; count = count.new }) list.new }
{
    kizmoolet::kizmoolet_work_orders(
        head, branches, records, places, names, slab, moment, list, count,
    )
}
