// A byte for each record: 1 where a lookup at one of a list of moments gives it.
#![tactic(auto)]

ghost use Rattle.std.specs.Prelude.{◌≡◌, ◌+◌, ◌≤◌, ◌<◌, length};
ghost use Rattle.rows.specs.Rows.{branch_rows_of, record_rows_of, BranchesIn, RecordsIn};
ghost use Rattle.model.specs.ByNumber.{Line, Ascend};
ghost use Rattle.branch_marks.specs.Marks.{Held, Placed, Filled};
ghost use Rattle.spans.specs.Order.{Tree, Edges, Sums, Firsts};
ghost use Rattle.record_marks.specs.Marks.{Blank, owners_in, ends_in, GivenBy, Taken, Worked, Stopped, Onward, given_row};

// The first number from lo on that no span of the address a begins at, or one not below hi.
pub fn hop(taken: &[u64], a: u32, lo: usize, hi: usize) -> usize
    requires hi_in_bounds { hi ≤ length taken.now }
    requires onward { Onward (owners_in taken.now) (ends_in taken.now) (a + 1) }
    ensures { Stopped (owners_in taken.now) (ends_in taken.now) (a + 1) lo hi result }
{
    // Kept: a while is the plainer loop here, since p jumps to the end of each span: it counts over no range.
    let mut p = lo;
    while p < hi {
        let v = taken[p];
        if v / 4294967296 != a as u64 {
            return p;
        }
        if v % 4294967296 == 0 {
            return p;
        }
        p = (v % 4294967296) as usize;
    }
    p
}

// The bytes of nr records, from the last to the first. At a number where a span of the address begins, taken has the address and the end of the longest such span.
pub fn mark_rows(
    bt: &[u32],
    n: usize,
    keys: &[u64],
    ne: usize,
    edges: &[u32],
    sums: &[u32],
    firsts: &[u32],
    rt: &[u32],
    nr: usize,
    taken: &mut [u64],
    marks: &mut [u8],
)
    requires branches_in { BranchesIn n bt.now × (0 < n) × (ne ≤ 16384) × (ne ≤ length keys.now) × (n ≤ length edges.now) × (ne < length sums.now) × (n ≤ length firsts.now) × RecordsIn nr rt.now × (ne ≤ length taken.old) × (nr ≤ length marks.old) }
    requires line { Line (branch_rows_of bt.now) n }
    requires tree { Tree (branch_rows_of bt.now) n keys.now ne }
    requires sums { Sums (branch_rows_of bt.now) keys.now ne ne sums.now }
    requires edges { Edges (branch_rows_of bt.now) n keys.now ne edges.now }
    requires firsts { Firsts (branch_rows_of bt.now) n keys.now ne 0 sums.now firsts.now }
    requires ascend { Ascend (record_rows_of rt.now) nr }
    requires placed { Placed (branch_rows_of bt.now) n (record_rows_of rt.now) nr }
    requires blank { Blank taken.old }
    ensures given_by { GivenBy (branch_rows_of bt.now) n (record_rows_of rt.now) nr keys.now ne marks.old marks.new }
    ensures taken { Taken (branch_rows_of bt.now) n keys.now ne sums.now firsts.now (record_rows_of rt.now) nr taken.old taken.new }
{
    let mut s = spans::no_span();
    for k in (0..nr).rev() {
        let r = rows::record_at(rt, k);
        s = spans::span_near(bt, n, keys, ne, edges, sums, firsts, r.moment, s);
        let lo = s.lo;
        let hi = s.hi;
        if hi <= lo {
            marks[k] = 0;
            continue;
        }
        let p = hop(taken, r.address, lo, hi);
        taken[lo] = r.address as u64 * 4294967296 + hi as u64;
        marks[k] = (p < hi) as u8;
    }
}

// The first n numbers become 0.
fn clear(t: &mut [u64], n: usize)
    requires { n ≤ length t.old }
    ensures { Filled (λ _. 0) n t.old t.new }
{
    t[..n].fill(0);
}

// The bytes of nr records in rooms that are lent: keys and sums of the events, edges and first numbers of the rows. The room of the sort, zeros at first,
// is then that of the spans taken.
fn mark_with(
    bt: &[u32],
    n: usize,
    wanted: &[u32],
    rt: &[u32],
    nr: usize,
    keys: &mut [u64],
    room: &mut [u64],
    sums: &mut [u32],
    edges: &mut [u32],
    firsts: &mut [u32],
    marks: &mut [u8],
)
    requires branches_in { BranchesIn n bt.now × (n ≤ 4096) × (0 < n) × (length wanted.now ≤ 8192) × RecordsIn nr rt.now × (length wanted.now + n ≤ length keys.old + 1) × (length wanted.now + n ≤ length room.old + 1) × (length wanted.now + n ≤ length sums.old) × (n ≤ length edges.old) × (n ≤ length firsts.old) × (nr ≤ length marks.old) }
    requires line { Line (branch_rows_of bt.now) n }
    requires held { Held (branch_rows_of bt.now) n wanted.now }
    requires ascend { Ascend (record_rows_of rt.now) nr }
    requires placed { Placed (branch_rows_of bt.now) n (record_rows_of rt.now) nr }
    requires blank { Blank room.old }
    ensures filled { Filled (given_row (branch_rows_of bt.now) n (record_rows_of rt.now) nr wanted.now) nr marks.old marks.new }
    ensures worked { Worked (branch_rows_of bt.now) n wanted.now (record_rows_of rt.now) nr keys.old keys.new room.old room.new sums.old sums.new edges.old edges.new firsts.old firsts.new }
{
    let ne = events::list(bt, n, wanted, keys, room);
    spans::edge_rows(bt, n, keys, ne, edges);
    spans::sum_up(bt, n, keys, ne, edges, sums);
    spans::number_rows(bt, n, keys, ne, edges, sums, firsts);
    clear(room, ne);
    mark_rows(bt, n, keys, ne, edges, sums, firsts, rt, nr, room, marks);
}

// The bytes of nr records, in rooms for EVENTS events and ROWS rows; SUMS is one more than EVENTS. Not inlined, so that few rows take no stack for many.
#[inline(never)]
fn mark_in<const EVENTS: usize, const SUMS: usize, const ROWS: usize>(
    bt: &[u32],
    n: usize,
    wanted: &[u32],
    rt: &[u32],
    nr: usize,
    marks: &mut [u8],
)
    requires rooms { (EVENTS ≤ 16384) × (SUMS ≡ EVENTS + 1) × (ROWS ≤ 4096) }
    requires branches_in { BranchesIn n bt.now × (n ≤ ROWS) × (0 < n) × (length wanted.now ≤ 8192) × (length wanted.now + n ≤ EVENTS + 1) × RecordsIn nr rt.now × (nr ≤ length marks.old) }
    requires line { Line (branch_rows_of bt.now) n }
    requires held { Held (branch_rows_of bt.now) n wanted.now }
    requires ascend { Ascend (record_rows_of rt.now) nr }
    requires placed { Placed (branch_rows_of bt.now) n (record_rows_of rt.now) nr }
    ensures { Filled (given_row (branch_rows_of bt.now) n (record_rows_of rt.now) nr wanted.now) nr marks.old marks.new }
{
    let mut keys = [0u64; EVENTS];
    let mut room = [0u64; EVENTS];
    let mut sums = [0u32; SUMS];
    let mut edges = [0u32; ROWS];
    let mut firsts = [0u32; ROWS];
    mark_with(
        bt,
        n,
        wanted,
        rt,
        nr,
        &mut keys,
        &mut room,
        &mut sums,
        &mut edges,
        &mut firsts,
        marks,
    );
}

// The bytes of nr records: 1 where a lookup at a wanted moment gives it.
pub fn mark_records(bt: &[u32], n: usize, wanted: &[u32], rt: &[u32], nr: usize, marks: &mut [u8])
    requires branches_in { BranchesIn n bt.now × (n ≤ 4096) × (0 < n) × (length wanted.now ≤ 4129) × RecordsIn nr rt.now × (nr ≤ length marks.old) }
    requires line { Line (branch_rows_of bt.now) n }
    requires held { Held (branch_rows_of bt.now) n wanted.now }
    requires ascend { Ascend (record_rows_of rt.now) nr }
    requires placed { Placed (branch_rows_of bt.now) n (record_rows_of rt.now) nr }
    ensures { Filled (given_row (branch_rows_of bt.now) n (record_rows_of rt.now) nr wanted.now) nr marks.old marks.new }
{
    if n <= 256 && wanted.len() <= 289 {
        mark_in::<544, 545, 256>(bt, n, wanted, rt, nr, marks);
    } else {
        mark_in::<8224, 8225, 4096>(bt, n, wanted, rt, nr, marks);
    }
}
