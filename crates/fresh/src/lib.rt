// Making a fresh store over what is lent.
#![tactic(auto)]

ghost use Rattle.std.specs.Prelude.{◌≡◌, length};
ghost use Rattle.rows.specs.Rows.{zeros};
ghost use Rattle.rows.specs.View.{tables};
ghost use Rattle.fresh.specs.Fresh.{Fresh};

use model::{Branch, Head, OPEN_END};

// The head of the fresh store with 0, or the head as it was with the refusal.
#[derive(Clone, Copy)]
pub struct Made {
    pub head: Head,
    pub refusal: u32,
}

// A table becomes zeros.
#[tactic(auto, unfolding(rows::specs::Rows::zeros))]
fn clear(t: &mut [u32])
    ensures { t.new ≡ zeros (length t.old) }
{
    t.fill(0);
}

// A fresh store of `size` pages over what is lent, whatever it holds; the slab is not read but for its length.
pub fn make(
    head: Head,
    size: u32,
    bt: &mut [u32],
    rt: &mut [u32],
    pt: &mut [u32],
    nt: &mut [u32],
    slab: &[u8],
) -> Made
    ensures { Fresh head size (tables bt.old rt.old pt.old nt.old slab.now) result (tables bt.new rt.new pt.new nt.new slab.now) }
{
    let allowed = soundness::sizes_allowed(
        size,
        bt.len(),
        rt.len(),
        pt.len(),
        nt.len(),
        slab.len(),
    );
    if !allowed {
        return Made { head, refusal: 1 };
    }
    clear(bt);
    clear(rt);
    clear(pt);
    clear(nt);
    rows::set_branch(
        bt,
        0,
        Branch {
            start: 0,
            end: OPEN_END,
            cut: 0,
            order: 0,
        },
    );
    let first = Head {
        size: size,
        branches: 1,
        records: 0,
        now: 0,
        floor: 0,
        names: 0,
    };
    Made {
        head: first,
        refusal: 0,
    }
}
