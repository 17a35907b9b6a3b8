// Where the wanted moments stand in an order in which those whose lookup comes by a moment are a span.
// Events fall by moment: a wanted moment, or the cut at which a row hangs. A key is an event's moment times 4,294,967,296, plus the row that hangs there or 0.
#![tactic(auto)]

ghost use Rattle.std.specs.Prelude.{◌≡◌, true, cond, ltb, eqb, suc, ◌+◌, ◌≤◌, ◌<◌, length};
ghost use Rattle.rows.specs.Rows.{branch_rows_of, BranchesIn};
ghost use Rattle.model.specs.ByNumber.{Line, held};
ghost use Rattle.branch_marks.specs.Marks.{Filled, Rest};
ghost use Rattle.spans.specs.Order.{reaches, above, first_of, Falling, Tree, Edges, Sums, Firsts, first_moment, last_moment, Ranged, Spanned};

// The numbers of a span, from lo to below hi, the row that holds its moment, how many events have it or a later one, and the first and the last of the
// moments that have the same span.
#[derive(Clone, Copy)]
pub struct Span {
    pub lo: usize,
    pub hi: usize,
    pub row: usize,
    pub at: usize,
    pub from: u64,
    pub to: u64,
}

// How many of ne events have the moment m or a later one.
pub fn above(keys: &[u64], ne: usize, m: u64) -> usize
    requires ne_in_bounds { ne ≤ length keys.now }
    requires falling { Falling keys.now ne }
    ensures { result ≡ above keys.now ne m }
{
    keys[..ne].partition_point(|key| m <= *key / 4294967296)
}

// Whether the event before c, if there is one, has the moment m or a later one.
fn reaches(keys: &[u64], m: u64, c: usize) -> bool
    requires { c ≤ length keys.now }
    ensures { result ≡ reaches keys.now m c }
{
    c == 0 || m <= keys[c - 1] / 4294967296
}

// Whether c is how many of ne events have the moment m or a later one.
pub fn is_above(keys: &[u64], ne: usize, m: u64, c: usize) -> bool
    requires ne_in_bounds { (ne ≤ length keys.now) × (c ≤ ne) }
    requires falling { Falling keys.now ne }
    ensures { result ≡ eqb c (above keys.now ne m) }
{
    if c < ne && m <= keys[c] / 4294967296 {
        return false;
    }
    reaches(keys, m, c)
}

// How many of ne events have the moment m or a later one: c and the next number are tried first.
pub fn above_near(keys: &[u64], ne: usize, m: u64, c: usize) -> usize
    requires ne_in_bounds { (ne ≤ length keys.now) × (c ≤ ne) }
    requires falling { Falling keys.now ne }
    ensures { result ≡ above keys.now ne m }
{
    if is_above(keys, ne, m, c) {
        return c;
    }
    if c < ne && is_above(keys, ne, m, c + 1) {
        return c + 1;
    }
    above(keys, ne, m)
}

// The events before each row's: how many stand after its end. Newest to oldest, each near the one before it.
pub fn edge_rows(bt: &[u32], n: usize, keys: &[u64], ne: usize, edges: &mut [u32])
    requires branches_in { BranchesIn n bt.now × (ne ≤ length keys.now) × (ne < 4294967296) × (n ≤ length edges.old) }
    requires falling { Falling keys.now ne }
    ensures { Filled (first_of (branch_rows_of bt.now) keys.now ne) n edges.old edges.new }
{
    let mut c: usize = 0;
    for i in (0..n).rev() {
        let b = rows::branch_at(bt, i);
        c = above_near(keys, ne, b.end as u64 + 1, c);
        edges[i] = c as u32;
    }
}

// The sums of the numbers of wanted moments below the events, up to each. A row's events stand between its edge and that of the row before it.
// A sum is below 16,384 × 16,384, so that it has 32 bits.
pub fn sum_up(bt: &[u32], n: usize, keys: &[u64], ne: usize, edges: &[u32], sums: &mut [u32])
    requires branches_in { BranchesIn n bt.now × (ne ≤ 16384) × (ne ≤ length keys.now) × (n ≤ length edges.now) × (ne < length sums.old) }
    requires line { Line (branch_rows_of bt.now) n }
    requires tree { Tree (branch_rows_of bt.now) n keys.now ne }
    requires edges { Edges (branch_rows_of bt.now) n keys.now ne edges.now }
    ensures sums { Sums (branch_rows_of bt.now) keys.now ne ne sums.new }
    ensures rest { Rest (ne + 1) sums.old sums.new }
{
    sums[0] = 0;
    for k in 0..ne {
        let j = (keys[k] % 4294967296) as usize;
        if j == 0 {
            sums[k + 1] = sums[k] + 1;
            continue;
        }
        let first = edges[j] as usize;
        let past = edges[j - 1] as usize;
        sums[k + 1] = sums[k] + (sums[past] - sums[first]);
    }
}

// The number of each row's first wanted moment: parents first.
pub fn number_rows(
    bt: &[u32],
    n: usize,
    keys: &[u64],
    ne: usize,
    edges: &[u32],
    sums: &[u32],
    firsts: &mut [u32],
)
    requires branches_in { BranchesIn n bt.now × (0 < n) × (ne ≤ 16384) × (ne ≤ length keys.now) × (n ≤ length edges.now) × (ne < length sums.now) × (n ≤ length firsts.old) }
    requires line { Line (branch_rows_of bt.now) n }
    requires tree { Tree (branch_rows_of bt.now) n keys.now ne }
    requires sums { Sums (branch_rows_of bt.now) keys.now ne ne sums.now }
    requires edges { Edges (branch_rows_of bt.now) n keys.now ne edges.now }
    ensures firsts { Firsts (branch_rows_of bt.now) n keys.now ne 0 sums.now firsts.new }
    ensures rest { Rest n firsts.old firsts.new }
{
    firsts[0] = 0;
    let mut p: usize = 0;
    for k in (0..ne).rev() {
        let j = (keys[k] % 4294967296) as usize;
        if j == 0 {
            continue;
        }
        p = branch_marks::row_near(bt, n, (keys[k] / 4294967296) as u32, p);
        let first = edges[p] as usize;
        firsts[j] = firsts[p] + (sums[k] - sums[first]);
    }
}

// The first moment of the row i that c events have or pass.
fn first_moment(bt: &[u32], i: usize, keys: &[u64], ne: usize, c: usize) -> u64
    requires { BranchesIn (suc i) bt.now × (ne ≤ length keys.now) }
    ensures { result ≡ first_moment (branch_rows_of bt.now) i keys.now ne c }
{
    let b = rows::branch_at(bt, i);
    if c < ne {
        return (b.start as u64).max(keys[c] / 4294967296 + 1);
    }
    b.start as u64
}

// The last moment of the row i that c events have or pass.
fn last_moment(bt: &[u32], i: usize, keys: &[u64], c: usize) -> u64
    requires { BranchesIn (suc i) bt.now × (c ≤ length keys.now) }
    ensures { result ≡ last_moment (branch_rows_of bt.now) i keys.now c }
{
    let b = rows::branch_at(bt, i);
    if 0 < c {
        return (b.end as u64).min(keys[c - 1] / 4294967296);
    }
    b.end as u64
}

// A span that no moment has.
pub fn no_span() -> Span
    ensures { result ≡ record { lo = 0; hi = 0; row = 0; at = 0; from = 1; to = 0 } }
{
    Span {
        lo: 0,
        hi: 0,
        row: 0,
        at: 0,
        from: 1,
        to: 0,
    }
}

// The span of a moment: the one before it if the moment has it too.
pub fn span_near(
    bt: &[u32],
    n: usize,
    keys: &[u64],
    ne: usize,
    edges: &[u32],
    sums: &[u32],
    firsts: &[u32],
    m: u32,
    s: Span,
) -> Span
    requires branches_in { BranchesIn n bt.now × (ne ≤ 16384) × (ne ≤ length keys.now) × (ne < length sums.now) × (n ≤ length edges.now) × (n ≤ length firsts.now) }
    requires line { Line (branch_rows_of bt.now) n }
    requires tree { Tree (branch_rows_of bt.now) n keys.now ne }
    requires sums { Sums (branch_rows_of bt.now) keys.now ne ne sums.now }
    requires edges { Edges (branch_rows_of bt.now) n keys.now ne edges.now }
    requires firsts { Firsts (branch_rows_of bt.now) n keys.now ne 0 sums.now firsts.now }
    requires m_value { held (branch_rows_of bt.now) n m ≡ true }
    requires ranged { Ranged (branch_rows_of bt.now) n keys.now ne sums.now firsts.now s }
    ensures { Spanned (branch_rows_of bt.now) n keys.now ne sums.now firsts.now m result }
{
    let t = m as u64;
    if t < s.from || s.to < t {
        return span_of(bt, n, keys, ne, edges, sums, firsts, m, s.row, s.at);
    }
    s
}

// The span of a moment. The row `near` and the number of events `at` are tried first.
pub fn span_of(
    bt: &[u32],
    n: usize,
    keys: &[u64],
    ne: usize,
    edges: &[u32],
    sums: &[u32],
    firsts: &[u32],
    m: u32,
    near: usize,
    at: usize,
) -> Span
    requires branches_in { BranchesIn n bt.now × (ne ≤ 16384) × (ne ≤ length keys.now) × (ne < length sums.now) × (n ≤ length edges.now) × (n ≤ length firsts.now) × (near < n) × (at ≤ ne) }
    requires line { Line (branch_rows_of bt.now) n }
    requires tree { Tree (branch_rows_of bt.now) n keys.now ne }
    requires sums { Sums (branch_rows_of bt.now) keys.now ne ne sums.now }
    requires edges { Edges (branch_rows_of bt.now) n keys.now ne edges.now }
    requires firsts { Firsts (branch_rows_of bt.now) n keys.now ne 0 sums.now firsts.now }
    requires m_value { held (branch_rows_of bt.now) n m ≡ true }
    ensures { Spanned (branch_rows_of bt.now) n keys.now ne sums.now firsts.now m result }
{
    let i = branch_marks::row_near(bt, n, m, near);
    let c = above_near(keys, ne, m as u64, at);
    let lo = firsts[i] as usize;
    let first = edges[i] as usize;
    Span {
        lo,
        hi: lo + (sums[c] - sums[first]) as usize,
        row: i,
        at: c,
        from: first_moment(bt, i, keys, ne, c),
        to: last_moment(bt, i, keys, c),
    }
}
