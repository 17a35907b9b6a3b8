// A request carried out, whichever it is.
#![tactic(auto)]

ghost use Rattle.model.specs.ByNumber.{Sound, Whole};
ghost use Rattle.rows.specs.View.{tables, store_of, Carried};
ghost use Rattle.wire.specs.Requests.{request_of};
ghost use Rattle.writing.specs.Free.{NoneBelow};

use model::Head;
use rows::Outcome;
use wire::Request;

// One request carried out; part is the input from it on, in which a write's page stands. No place below low is free, before and after:
// a write looks for one from there on, and a reclaim, which may free any, sets it back.
pub fn serve(
    head: Head,
    bt: &mut [u32],
    rt: &mut [u32],
    pt: &mut [u32],
    nt: &mut [u32],
    slab: &mut [u8],
    part: &[u8],
    q: Request,
    low: &mut usize,
) -> Outcome
    requires sound { Sound (store_of head (tables bt.old rt.old pt.old nt.old slab.old)) × Whole (request_of part.now q) }
    requires none_below { NoneBelow low.old pt.old }
    ensures carried { Carried head (tables bt.old rt.old pt.old nt.old slab.old) (request_of part.now q) result (tables bt.new rt.new pt.new nt.new slab.new) }
    ensures none_below_2 { NoneBelow low.new pt.new }
{
    match q {
        Request::Write(a) => writing::write(head, rt, pt, slab, a, &part[7..263], low),
        Request::Mark => store::mark(head),
        Request::Revert(m, w) => store::revert(head, bt, nt, m, w),
        Request::ReadAt(a, m) => store::read(head, bt, rt, nt, a, m),
        Request::Reclaim(m) => {
            *low = 0;
            reclaim::reclaim(head, bt, rt, pt, nt, m)
        }
        Request::Give(n) => naming::give(head, nt, n),
        Request::Withdraw(upper, lower) => naming::withdraw(head, nt, upper, lower),
    }
}
