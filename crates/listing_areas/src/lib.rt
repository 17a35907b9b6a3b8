// A list of work orders on areas of bytes: head and tables are decoded to local arrays of numbers, and only read.
#![tactic(auto)]

ghost use Rattle.std.specs.Prelude.{◌≡◌, true};
ghost use Rattle.rows.specs.View.{tables, number_tables};
ghost use Rattle.tables.specs.Tables.{numbers_in, Room};
ghost use Rattle.areas.specs.Lent.{lent, fits};
ghost use Rattle.listing.specs.Lists.{listing_of, Lists};
ghost use Rattle.listing_areas.specs.Lists.{list_bytes};

use model::Head;
use tables::{BRANCH_NUMBERS, NAME_NUMBERS, PLACE_NUMBERS, RECORD_NUMBERS};
use work_orders::Listed;

// A list of work orders on tables of bytes, with room for their numbers.
fn list_tables(
    head: Head,
    branches: &[u8],
    records: &[u8],
    places: &[u8],
    names: &[u8],
    slab: &[u8],
    moment: u32,
    list: &mut [u8],
    bt: &mut [u32],
    rt: &mut [u32],
    pt: &mut [u32],
    nt: &mut [u32],
) -> Listed
    requires { Room (number_tables branches.now records.now places.now names.now) (number_tables bt.old rt.old pt.old nt.old) }
    ensures { Lists (listing_of head (numbers_in (tables branches.now records.now places.now names.now slab.now)) moment list.old) result list.new }
{
    tables::load(branches, records, places, names, bt, rt, pt, nt);
    listing::list_orders(head, bt, rt, pt, nt, slab, moment, list)
}

// A list of work orders on areas of bytes whose lengths fit.
pub fn list_areas(
    head: &[u8],
    branches: &[u8],
    records: &[u8],
    places: &[u8],
    names: &[u8],
    slab: &[u8],
    moment: u32,
    list: &mut [u8],
) -> Listed
    requires { fits (lent head.now branches.now records.now places.now names.now slab.now) ≡ true }
    ensures { Lists (list_bytes (lent head.now branches.now records.now places.now names.now slab.now) moment list.old) result list.new }
{
    let nb = branches.len() / 4;
    let nr = records.len() / 4;
    let np = places.len() / 4;
    let first = tables::get_head(head);
    let mut bt = tables::room::<BRANCH_NUMBERS>();
    let mut rt = tables::room::<RECORD_NUMBERS>();
    let mut pt = tables::room::<PLACE_NUMBERS>();
    let mut nt = tables::room::<NAME_NUMBERS>();
    list_tables(
        first,
        branches,
        records,
        places,
        names,
        slab,
        moment,
        list,
        &mut bt[..nb],
        &mut rt[..nr],
        &mut pt[..np],
        &mut nt,
    )
}
