// The batch program, between two descriptors: what is read is one batch for a fresh store; the answers are written, then one byte, the
// stop number.
#![tactic(auto)]

ghost use Rattle.std.specs.Prelude.{◌≡◌, ◌*◌, length};
ghost use Rattle.model.specs.Fresh.{program_store};
ghost use Rattle.model.specs.Batch.{batch};
ghost use Rattle.live.specs.Live.{disk_of};
ghost use Rattle.live.specs.Fit.{Sized};
ghost use Rattle.rows.specs.Rows.{zeros, branch_width, record_width};
ghost use Rattle.rows.specs.View.{tables};
ghost use Rattle.batch.specs.Batch.{BatchLeaves};
ghost use Rattle.program.specs.Session.{TableLengths, at_start, Sends, SessionLeaves, SomeSession};

use batch::Done;
use model::Head;

// The program's tables: 16 branches, 128 records, 128 places, 32 names.
const BRANCH_NUMBERS: usize = 16 * rows::BRANCH_WIDTH;

const RECORD_NUMBERS: usize = 128 * rows::RECORD_WIDTH;

const NAME_NUMBERS: usize = 32 * rows::NAME_WIDTH;

const SLAB_BYTES: usize = 128 * 256;

// Its live disk: a page for each of 64 addresses.
const DISK_BYTES: usize = 64 * 256;

// An answer area of 65,536 bytes, and the stop number.
const OUTPUT_BYTES: usize = 65536 + 1;

fn page_slab() -> [u8; SLAB_BYTES]
    ensures { result ≡ zeros (128 * 256) }
{
    [0u8; SLAB_BYTES]
}

fn live_disk() -> [u8; DISK_BYTES]
    ensures { result ≡ zeros (64 * 256) }
{
    [0u8; DISK_BYTES]
}

// Every page of it is stale.
fn page_marks() -> [u8; 64]
    ensures { result ≡ zeros 64 }
{
    [0u8; 64]
}

fn record_rows() -> [u32; RECORD_NUMBERS]
    ensures { result ≡ zeros (128 * record_width) }
{
    [0u32; RECORD_NUMBERS]
}

fn branch_rows() -> [u32; BRANCH_NUMBERS]
    ensures { result ≡ zeros (16 * branch_width) }
{
    [0u32; BRANCH_NUMBERS]
}

fn output_area() -> [u8; OUTPUT_BYTES]
    ensures { length result ≡ 65537 }
{
    [0u8; OUTPUT_BYTES]
}

// A fresh store of 64 pages over tables of the program's lengths, and the input as one batch for it, with a live disk of 64 pages.
fn serve_fresh(
    bt: &mut [u32],
    rt: &mut [u32],
    pt: &mut [u32],
    nt: &mut [u32],
    slab: &mut [u8],
    disk: &mut [u8],
    marks: &mut [u8],
    input: &[u8],
    answers: &mut [u8],
) -> Done
    requires table_lengths { TableLengths (tables bt.old rt.old pt.old nt.old slab.old) }
    requires sized { Sized 64 (disk_of disk.old marks.old) }
    ensures { BatchLeaves (batch (program_store slab.old) input.now (length answers.old)) (tables bt.old rt.old pt.old nt.old slab.old) answers.old result (tables bt.new rt.new pt.new nt.new slab.new) answers.new }
{
    let none = Head {
        size: 0,
        branches: 0,
        records: 0,
        now: 0,
        floor: 0,
        names: 0,
    };
    let made = fresh::make(none, 64, bt, rt, pt, nt, slab);
    let head = made.head;
    batch::batch(head, bt, rt, pt, nt, slab, disk, marks, input, answers).done
}

// What goes out: how many bytes the answers have, and the stop number.
#[derive(Clone, Copy)]
struct Reply {
    sent: usize,
    stop: u8,
}

// The tables, the slab and the live disk are the program's own: the place table starts with 128 free rows.
fn serve(input: &[u8], answers: &mut [u8]) -> Reply
    ensures { Sends (batch at_start input.now (length answers.old)) answers.old result answers.new }
{
    let mut branches = branch_rows();
    let mut records = record_rows();
    let mut places = [0; 128];
    let mut names = [0; NAME_NUMBERS];
    let mut slab = page_slab();
    let mut disk = live_disk();
    let mut marks = page_marks();
    let done = serve_fresh(
        &mut branches,
        &mut records,
        &mut places,
        &mut names,
        &mut slab,
        &mut disk,
        &mut marks,
        input,
        answers,
    );
    Reply {
        sent: done.sent,
        stop: done.stop as u8,
    }
}

// The output of a session stands in front of the area: the answers, then the stop number. An area of no bytes gets none.
pub fn session(input: &[u8], out: &mut [u8]) -> usize
    ensures { SessionLeaves input.now out.old result out.new }
{
    if out.len() == 0 {
        return 0;
    }
    let space = out.len() - 1;
    let reply = serve(input, &mut out[..space]);
    let sent = reply.sent;
    out[sent] = reply.stop;
    sent + 1
}

// One session: up to 65,536 bytes are read, and its output is written. It is as long as that of what was read, whatever that was. Where
// the output cannot be written whole, standard error says so.
pub fn run(from: i32, to: i32) -> usize
    ensures { SomeSession result }
{
    let mut input = io::large_buffer();
    let n = io::read_full(from, &mut input);
    let mut out = output_area();
    let sent = session(&input[..n], &mut out);
    let whole = io::write_all(to, &out[..sent]);
    if !whole {
        io::write_all(2, b"cabinet: the output could not be written\n");
    }
    sent
}
