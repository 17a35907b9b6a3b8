// The lent forms: the head by `&mut`, and the branch table as a slice of rows.
#![tactic(auto)]

ghost use Rattle.std.specs.Prelude.{◌≡◌, ◌++◌, ◌*◌, ◌<◌, length, get_or, set, take, drop};
ghost use Rattle.model.specs.Store.{zero_branch};
ghost use Rattle.live.specs.Live.{disk_of};
ghost use Rattle.rows.specs.Rows.{flat, branch_width, branch_fields, branch_rows_of, BranchesIn};
ghost use Rattle.lent.specs.Lent.{lent, lent_batch, lent_read, BatchLeaves, FreshLeaves, zero_rows, fresh_batch, fresh_read};

use fresh::Made;
use model::{Branch, Head};

// As many branch rows as a store may have, and their numbers.
const MOST_ROWS: usize = 4096;

const MOST_NUMBERS: usize = MOST_ROWS * rows::BRANCH_WIDTH;

// One row of a lent branch table.
pub fn branch_row(rows: &[Branch], i: usize) -> Branch
    requires { i < length rows.now }
    ensures { result ≡ get_or rows.now i zero_branch }
{
    rows[i]
}

// One row of a lent branch table is set.
pub fn set_branch_row(rows: &mut [Branch], i: usize, b: Branch)
    requires { i < length rows.old }
    ensures { rows.new ≡ set rows.old i b }
{
    rows[i] = b;
}

// All rows, laid flat at the start of a table; the rest of the table stays.
pub fn load_rows(rows: &[Branch], table: &mut [u32])
    requires { BranchesIn (length rows.now) table.old }
    ensures { table.new ≡ flat branch_fields rows.now ++ drop (length rows.now * branch_width) table.old }
{
    for i in 0..rows.len() {
        rows::set_branch(table, i, branch_row(rows, i));
    }
}

// As many rows as are lent, out of the start of a flat table.
pub fn store_rows(rows: &mut [Branch], table: &[u32])
    requires { BranchesIn (length rows.old) table.now }
    ensures { rows.new ≡ take (length rows.old) (branch_rows_of table.now) }
{
    for i in 0..rows.len() {
        set_branch_row(rows, i, rows::branch_at(table, i));
    }
}

// What a batch reports: the stop number, the requests answered, their bytes, the bytes of their answers, and how many record rows the
// table checks read.
#[derive(Clone, Copy)]
pub struct Report {
    pub stop: u32,
    pub answered: usize,
    pub taken: usize,
    pub sent: usize,
    pub rows: usize,
}

// A head with a report.
#[derive(Clone, Copy)]
pub struct Ended {
    pub head: Head,
    pub report: Report,
}

// The core's batch, on the first `count` rows of a flat table.
#[tactic(auto, using(crate::proofs::Lending::disk_front, crate::proofs::Lending::read_front))]
pub fn batch_rows(
    head: Head,
    count: usize,
    table: &mut [u32],
    rt: &mut [u32],
    pt: &mut [u32],
    nt: &mut [u32],
    slab: &mut [u8],
    disk: &mut [u8],
    marks: &mut [u8],
    input: &[u8],
    answers: &mut [u8],
) -> Ended
    requires { BranchesIn count table.old }
    ensures table_unchanged { (drop (count * branch_width) table.new ≡ drop (count * branch_width) table.old) × BatchLeaves (lent_batch head (lent (take count (branch_rows_of table.old)) rt.old pt.old nt.old slab.old) (disk_of disk.old marks.old) input.now (length answers.old)).run (lent (take count (branch_rows_of table.old)) rt.old pt.old nt.old slab.old) answers.old result.report result.head (lent (take count (branch_rows_of table.new)) rt.new pt.new nt.new slab.new) answers.new }
    ensures marks_after { disk_of disk.new marks.new ≡ (lent_batch head (lent (take count (branch_rows_of table.old)) rt.old pt.old nt.old slab.old) (disk_of disk.old marks.old) input.now (length answers.old)).disk }
    ensures rows_value { result.report.rows ≡ lent_read head (lent (take count (branch_rows_of table.old)) rt.old pt.old nt.old slab.old) }
{
    let end = count * rows::BRANCH_WIDTH;
    let batched = batch::batch(
        head,
        &mut table[..end],
        rt,
        pt,
        nt,
        slab,
        disk,
        marks,
        input,
        answers,
    );
    let done = batched.done;
    let after = done.head;
    Ended {
        head: after,
        report: Report {
            stop: done.stop,
            answered: done.answered,
            taken: done.taken,
            sent: done.sent,
            rows: batched.rows,
        },
    }
}

// The core's fresh store, over the first `count` rows of a flat table.
pub fn fresh_rows(
    head: Head,
    size: u32,
    count: usize,
    table: &mut [u32],
    rt: &mut [u32],
    pt: &mut [u32],
    nt: &mut [u32],
    slab: &[u8],
) -> Made
    requires { BranchesIn count table.old }
    ensures { (drop (count * branch_width) table.new ≡ drop (count * branch_width) table.old) × FreshLeaves head (lent (take count (branch_rows_of table.old)) rt.old pt.old nt.old slab.now) size result.refusal result.head (lent (take count (branch_rows_of table.new)) rt.new pt.new nt.new slab.now) }
{
    let end = count * rows::BRANCH_WIDTH;
    fresh::make(head, size, &mut table[..end], rt, pt, nt, slab)
}

// A batch on what is lent, whatever it holds; the head is the caller's, and is brought up to date.
#[tactic(auto, using(crate::proofs::Lending::loaded_front, crate::proofs::Lending::many_batch_leaves, crate::proofs::Lending::many_disk, crate::proofs::Lending::many_read))]
pub fn run_batch(
    head: &mut Head,
    branches: &mut [Branch],
    rt: &mut [u32],
    pt: &mut [u32],
    nt: &mut [u32],
    slab: &mut [u8],
    disk: &mut [u8],
    marks: &mut [u8],
    input: &[u8],
    answers: &mut [u8],
) -> Report
    ensures batch_leaves { BatchLeaves (lent_batch head.old (lent branches.old rt.old pt.old nt.old slab.old) (disk_of disk.old marks.old) input.now (length answers.old)).run (lent branches.old rt.old pt.old nt.old slab.old) answers.old result head.new (lent branches.new rt.new pt.new nt.new slab.new) answers.new }
    ensures marks_after { disk_of disk.new marks.new ≡ (lent_batch head.old (lent branches.old rt.old pt.old nt.old slab.old) (disk_of disk.old marks.old) input.now (length answers.old)).disk }
    ensures rows_value { result.rows ≡ lent_read head.old (lent branches.old rt.old pt.old nt.old slab.old) }
{
    if MOST_ROWS < branches.len() {
        return Report {
            stop: 1,
            answered: 0,
            taken: 0,
            sent: 0,
            rows: 0,
        };
    }
    let mut table = [0u32; MOST_NUMBERS];
    load_rows(branches, &mut table);
    let done = batch_rows(
        *head,
        branches.len(),
        &mut table,
        rt,
        pt,
        nt,
        slab,
        disk,
        marks,
        input,
        answers,
    );
    store_rows(branches, &table);
    *head = done.head;
    done.report
}

// A fresh store of `size` pages over what is lent, whatever it holds; 0, or the refusal.
#[tactic(auto, using(crate::proofs::Lending::loaded_front))]
pub fn make_fresh(
    head: &mut Head,
    size: u32,
    branches: &mut [Branch],
    rt: &mut [u32],
    pt: &mut [u32],
    nt: &mut [u32],
    slab: &[u8],
) -> u32
    ensures { FreshLeaves head.old (lent branches.old rt.old pt.old nt.old slab.now) size result head.new (lent branches.new rt.new pt.new nt.new slab.now) }
{
    if MOST_ROWS < branches.len() {
        return 1;
    }
    let mut table = [0u32; MOST_NUMBERS];
    load_rows(branches, &mut table);
    let made = fresh_rows(*head, size, branches.len(), &mut table, rt, pt, nt, slab);
    store_rows(branches, &table);
    *head = made.head;
    made.refusal
}

// A batch on a fresh store of `size` pages and 16 branch rows. Its own parameters are numbers and slices of numbers, so that whoever calls it is covered: head and rows lie in locals, which are lent.
#[tactic(auto, using(crate::proofs::Starting::read_made))]
pub fn fresh_batch(
    size: u32,
    rt: &mut [u32],
    pt: &mut [u32],
    nt: &mut [u32],
    slab: &mut [u8],
    disk: &mut [u8],
    marks: &mut [u8],
    input: &[u8],
    answers: &mut [u8],
) -> Ended
    ensures batch_leaves { BatchLeaves (fresh_batch size (zero_rows rt.old pt.old nt.old slab.old) (disk_of disk.old marks.old) input.now (length answers.old)).run (zero_rows rt.old pt.old nt.old slab.old) answers.old result.report result.head (lent (fresh_batch size (zero_rows rt.old pt.old nt.old slab.old) (disk_of disk.old marks.old) input.now (length answers.old)).run.store.branch_rows rt.new pt.new nt.new slab.new) answers.new }
    ensures marks_after { disk_of disk.new marks.new ≡ (fresh_batch size (zero_rows rt.old pt.old nt.old slab.old) (disk_of disk.old marks.old) input.now (length answers.old)).disk }
    ensures rows_value { result.report.rows ≡ fresh_read size (zero_rows rt.old pt.old nt.old slab.old) }
{
    let mut head = Head {
        size: 0,
        branches: 0,
        records: 0,
        now: 0,
        floor: 0,
        names: 0,
    };
    let row = Branch {
        start: 0,
        end: 0,
        cut: 0,
        order: 0,
    };
    let mut branches = [row; 16];
    make_fresh(&mut head, size, &mut branches, rt, pt, nt, slab);
    let report = run_batch(
        &mut head,
        &mut branches,
        rt,
        pt,
        nt,
        slab,
        disk,
        marks,
        input,
        answers,
    );
    Ended { head, report }
}
