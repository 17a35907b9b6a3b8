// A fresh store in areas of bytes: made in local arrays of numbers, and written as bytes.
#![tactic(auto)]

ghost use Rattle.std.specs.Prelude.{◌≡◌, true};
ghost use Rattle.rows.specs.View.{tables, number_tables};
ghost use Rattle.tables.specs.Tables.{Room};
ghost use Rattle.areas.specs.Lent.{lent, fits};
ghost use Rattle.fresh_areas.specs.Fresh.{fresh_left, FreshDone, FreshSaved};

use fresh::Made;
use model::Head;
use tables::{BRANCH_NUMBERS, NAME_NUMBERS, PLACE_NUMBERS, RECORD_NUMBERS};

// A fresh store made in tables of zeros and written as bytes; a refusal writes nothing.
fn fresh_tables(
    size: u32,
    branches: &mut [u8],
    records: &mut [u8],
    places: &mut [u8],
    names: &mut [u8],
    slab: &[u8],
    bt: &mut [u32],
    rt: &mut [u32],
    pt: &mut [u32],
    nt: &mut [u32],
) -> Made
    requires { Room (number_tables branches.old records.old places.old names.old) (number_tables bt.old rt.old pt.old nt.old) }
    ensures { FreshSaved size (tables branches.old records.old places.old names.old slab.now) result (tables branches.new records.new places.new names.new slab.now) }
{
    let none = Head {
        size: 0,
        branches: 0,
        records: 0,
        now: 0,
        floor: 0,
        names: 0,
    };
    let made = fresh::make(none, size, bt, rt, pt, nt, slab);
    if made.refusal != 0 {
        return made;
    }
    tables::save(bt, rt, pt, nt, branches, records, places, names);
    made
}

// A fresh store in areas of bytes whose lengths fit.
pub fn fresh_areas(
    size: u32,
    head: &mut [u8],
    branches: &mut [u8],
    records: &mut [u8],
    places: &mut [u8],
    names: &mut [u8],
    slab: &[u8],
) -> u32
    requires { fits (lent head.old branches.old records.old places.old names.old slab.now) ≡ true }
    ensures { FreshDone size (lent head.old branches.old records.old places.old names.old slab.now) (fresh_left result (lent head.new branches.new records.new places.new names.new slab.now)) }
{
    let nb = branches.len() / 4;
    let nr = records.len() / 4;
    let np = places.len() / 4;
    let mut bt = tables::room::<BRANCH_NUMBERS>();
    let mut rt = tables::room::<RECORD_NUMBERS>();
    let mut pt = tables::room::<PLACE_NUMBERS>();
    let mut nt = tables::room::<NAME_NUMBERS>();
    let made = fresh_tables(
        size,
        branches,
        records,
        places,
        names,
        slab,
        &mut bt[..nb],
        &mut rt[..nr],
        &mut pt[..np],
        &mut nt,
    );
    let refusal = made.refusal;
    if refusal != 0 {
        return refusal;
    }
    let new = made.head;
    tables::put_head(head, new);
    0
}
