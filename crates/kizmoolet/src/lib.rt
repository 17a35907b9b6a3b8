// The entries for C: areas of bytes of any lengths, and numbers told through pointers.
#![tactic(auto)]

ghost use Rattle.live.specs.Live.{disk_of};
ghost use Rattle.areas.specs.Lent.{lent};
ghost use Rattle.fresh_areas.specs.Fresh.{fresh_left, FreshDone};
ghost use Rattle.batch_areas.specs.Batch.{batch_left, BatchDone};
ghost use Rattle.copying.specs.Copy.{Copies};
ghost use Rattle.live_areas.specs.Live.{live_read_bytes, copy_bytes};
ghost use Rattle.listing.specs.Lists.{Lists};
ghost use Rattle.listing_areas.specs.Lists.{list_bytes};
ghost use Rattle.kizmoolet.specs.Told.{Tells};

use live::Spot;

// Makes a fresh store of `size` pages; 1, and nothing written, where the size or a length is not allowed.
pub fn kizmoolet_fresh(
    size: u32,
    head: &mut [u8],
    branches: &mut [u8],
    records: &mut [u8],
    places: &mut [u8],
    names: &mut [u8],
    slab: &[u8],
) -> u32
    ensures { FreshDone size (lent head.old branches.old records.old places.old names.old slab.now) (fresh_left result (lent head.new branches.new records.new places.new names.new slab.now)) }
{
    let fit = tables::lengths_fit(
        head.len(),
        branches.len(),
        records.len(),
        places.len(),
        names.len(),
    );
    if !fit {
        return 1;
    }
    fresh_areas::fresh_areas(size, head, branches, records, places, names, slab)
}

// Carries out a batch; the result is the stop number. Always written: the requests answered, the bytes of those requests that were
// taken, the bytes of their answers that were sent, and how many record rows the table checks read.
pub fn kizmoolet_batch(
    head: &mut [u8],
    branches: &mut [u8],
    records: &mut [u8],
    places: &mut [u8],
    names: &mut [u8],
    slab: &mut [u8],
    disk: &mut [u8],
    marks: &mut [u8],
    batch: &[u8],
    answers: &mut [u8],
    answered: &mut u64,
    taken: &mut u64,
    sent: &mut u64,
    rows: &mut u64,
) -> u32
    ensures { BatchDone (lent head.old branches.old records.old places.old names.old slab.old) (disk_of disk.old marks.old) batch.now answers.old (batch_left result answered.new taken.new sent.new rows.new (lent head.new branches.new records.new places.new names.new slab.new) (disk_of disk.new marks.new) answers.new) }
{
    let fit = tables::lengths_fit(
        head.len(),
        branches.len(),
        records.len(),
        places.len(),
        names.len(),
    );
    if !fit {
        *answered = 0;
        *taken = 0;
        *sent = 0;
        *rows = 0;
        return 1;
    }
    let report = batch_areas::batch_areas(
        head, branches, records, places, names, slab, disk, marks, batch, answers,
    );
    let done = report.done;
    *answered = done.answered as u64;
    *taken = done.taken as u64;
    *sent = done.sent as u64;
    *rows = report.rows as u64;
    done.stop
}

// A live read: where the page of an address lies, as it is at now; the result is the refusal, or 0. Always written: the area that the
// page is a part of (0 no page, 1 the live disk, 2 the slab), and the offset of its 256 bytes there.
pub fn kizmoolet_live_read(
    head: &[u8],
    branches: &[u8],
    records: &[u8],
    places: &[u8],
    names: &[u8],
    slab: &[u8],
    disk: &[u8],
    marks: &[u8],
    address: u32,
    area: &mut u32,
    offset: &mut u64,
) -> u32
    ensures { Tells (live_read_bytes (lent head.now branches.now records.now places.now names.now slab.now) (disk_of disk.now marks.now) address) result area.new offset.new }
{
    *area = 0;
    *offset = 0;
    let fit = tables::lengths_fit(
        head.len(),
        branches.len(),
        records.len(),
        places.len(),
        names.len(),
    );
    if !fit {
        return 1;
    }
    let located = live_areas::locate_areas(
        head, branches, records, places, names, slab, disk, marks, address,
    );
    let spot = located.spot;
    match spot {
        Spot::Nowhere => located.refusal,
        Spot::OnDisk(at) => {
            *area = 1;
            *offset = at as u64;
            located.refusal
        }
        Spot::InSlab(at) => {
            *area = 2;
            *offset = at as u64;
            located.refusal
        }
    }
}

// A copying step with this budget; the result is the refusal, or 0. Always written: how many pages it copied.
pub fn kizmoolet_copy_step(
    head: &[u8],
    branches: &[u8],
    records: &[u8],
    places: &[u8],
    names: &[u8],
    slab: &[u8],
    disk: &mut [u8],
    marks: &mut [u8],
    budget: u32,
    copied: &mut u64,
) -> u32
    ensures { Copies (copy_bytes (lent head.now branches.now records.now places.now names.now slab.now) (disk_of disk.old marks.old) budget) (disk_of disk.old marks.old) (record { refusal = result; count = copied.new }) (disk_of disk.new marks.new) }
{
    let fit = tables::lengths_fit(
        head.len(),
        branches.len(),
        records.len(),
        places.len(),
        names.len(),
    );
    if !fit {
        *copied = 0;
        return 1;
    }
    let done = live_areas::step_areas(
        head, branches, records, places, names, slab, disk, marks, budget,
    );
    *copied = done.count as u64;
    done.refusal
}

// The work orders of a moment, listed; the result is the refusal, or 0. Always written: how many work orders are listed.
pub fn kizmoolet_work_orders(
    head: &[u8],
    branches: &[u8],
    records: &[u8],
    places: &[u8],
    names: &[u8],
    slab: &[u8],
    moment: u32,
    list: &mut [u8],
    count: &mut u64,
) -> u32
    ensures { Lists (list_bytes (lent head.now branches.now records.now places.now names.now slab.now) moment list.old) (record { refusal = result; count = count.new }) list.new }
{
    let fit = tables::lengths_fit(
        head.len(),
        branches.len(),
        records.len(),
        places.len(),
        names.len(),
    );
    if !fit {
        *count = 0;
        return 1;
    }
    let listed = listing_areas::list_areas(
        head, branches, records, places, names, slab, moment, list,
    );
    *count = listed.count as u64;
    listed.refusal
}
