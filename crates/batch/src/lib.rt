// A batch: the checks once, then requests one after the other, each on the store that the last one left; the live disk follows.
#![tactic(auto)]

ghost use Rattle.std.specs.Prelude.{◌≡◌, length};
ghost use Rattle.model.specs.Batch.{batch};
ghost use Rattle.live.specs.Live.{disk_of, played};
ghost use Rattle.live.specs.Fit.{Fit};
ghost use Rattle.rows.specs.View.{tables, store_of};
ghost use Rattle.soundness.specs.Check.{read_of};
ghost use Rattle.batch.specs.Batch.{batch_of, stop_of, BatchLeaves};

use model::Head;
use wire::Parsed;

// What became of the requests: the head, the stop number, the requests answered, their bytes, and the bytes of their answers.
#[derive(Clone, Copy)]
pub struct Done {
    pub head: Head,
    pub stop: u32,
    pub answered: usize,
    pub taken: usize,
    pub sent: usize,
}

// What a batch reports: what became of its requests, and how many record rows the table checks read.
#[derive(Clone, Copy)]
pub struct Batched {
    pub done: Done,
    pub rows: usize,
}

// With which number a batch stops at what cannot be read, or at its end.
pub fn stop_number(p: Parsed) -> u32
    ensures { result ≡ stop_of p }
{
    match p {
        Parsed::End => 0,
        Parsed::Stop(n) => n,
        Parsed::One(_, _) => 0,
    }
}

// The requests of an input, on sound tables, and on a live disk that fits them.
pub fn run(
    first: Head,
    bt: &mut [u32],
    rt: &mut [u32],
    pt: &mut [u32],
    nt: &mut [u32],
    slab: &mut [u8],
    disk: &mut [u8],
    marks: &mut [u8],
    input: &[u8],
    answers: &mut [u8],
) -> Done
    requires { Fit (store_of first (tables bt.old rt.old pt.old nt.old slab.old)) (disk_of disk.old marks.old) }
    ensures batch_leaves { BatchLeaves (batch (store_of first (tables bt.old rt.old pt.old nt.old slab.old)) input.now (length answers.old)) (tables bt.old rt.old pt.old nt.old slab.old) answers.old result (tables bt.new rt.new pt.new nt.new slab.new) answers.new }
    ensures marks_after { disk_of disk.new marks.new ≡ played (disk_of disk.old marks.old) (batch (store_of first (tables bt.old rt.old pt.old nt.old slab.old)) input.now (length answers.old)).log }
{
    let mut head = first;
    let mut answered: usize = 0;
    let mut at: usize = 0;
    let mut out: usize = 0;
    let mut low: usize = 0;
    loop {
        let part = &input[at..];
        let p = wire::read_request(part);
        let Parsed::One(q, n) = p else {
            let stop = stop_number(p);
            return report(head, stop, answered, at, out);
        };
        if answers.len() - out < 5 {
            return report(head, 14, answered, at, out);
        }
        let r = serving::serve(head, bt, rt, pt, nt, slab, part, q, &mut low);
        head = r.head;
        let size = answering::answer_size(r);
        if answers.len() - out < size {
            return report(head, 14, answered, at, out);
        }
        answering::put_answer(&mut answers[out..], slab, r);
        following::follow(disk, marks, part, q, r.refusal);
        answered += 1;
        at += n;
        out += size;
    }
}

// A report of these numbers.
pub fn report(head: Head, stop: u32, answered: usize, taken: usize, sent: usize) -> Done
    ensures { result ≡ record { head = head; stop = stop; answered = answered; taken = taken; sent = sent } }
{
    Done {
        head,
        stop,
        answered,
        taken,
        sent,
    }
}

// A batch on what is lent, whatever it holds. Where the checks refuse, nothing is written.
pub fn batch(
    head: Head,
    bt: &mut [u32],
    rt: &mut [u32],
    pt: &mut [u32],
    nt: &mut [u32],
    slab: &mut [u8],
    disk: &mut [u8],
    marks: &mut [u8],
    input: &[u8],
    answers: &mut [u8],
) -> Batched
    ensures batch_leaves { BatchLeaves (batch_of head (tables bt.old rt.old pt.old nt.old slab.old) (disk_of disk.old marks.old) input.now (length answers.old)).run (tables bt.old rt.old pt.old nt.old slab.old) answers.old result.done (tables bt.new rt.new pt.new nt.new slab.new) answers.new }
    ensures marks_after { disk_of disk.new marks.new ≡ (batch_of head (tables bt.old rt.old pt.old nt.old slab.old) (disk_of disk.old marks.old) input.now (length answers.old)).disk }
    ensures rows_value { result.rows ≡ read_of head (tables bt.old rt.old pt.old nt.old slab.old) }
{
    let found = disk_check::check(head, bt, rt, pt, nt, slab, disk, marks);
    let rows = found.rows;
    if found.refusal != 0 {
        let done = report(head, found.refusal, 0, 0, 0);
        return Batched { done, rows };
    }
    let done = run(head, bt, rt, pt, nt, slab, disk, marks, input, answers);
    Batched { done, rows }
}
