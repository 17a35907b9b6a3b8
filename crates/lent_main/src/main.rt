// The worked session P1 to P10, its two reverts with work orders 4,711 and 65,535, and a named state behind it, as one batch on a
// fresh store, through the lent forms. Standard input holds the requests; the answers go to standard output, then the report and
// the head, a line each.
#![tactic(auto)]

ghost use Rattle.std.specs.Prelude.{◌≡◌, ◌*◌, length};
ghost use Rattle.rows.specs.Rows.{zeros, record_width, name_width};
ghost use Rattle.lent_main.specs.Session.{Replies};

use lent::Ended;

const RECORD_NUMBERS: usize = 128 * rows::RECORD_WIDTH;

const NAME_NUMBERS: usize = 32 * rows::NAME_WIDTH;

const SLAB_BYTES: usize = 128 * 256;

const DISK_BYTES: usize = 64 * 256;

fn page_slab() -> [u8; SLAB_BYTES]
    ensures { result ≡ zeros (128 * 256) }
{
    [0u8; SLAB_BYTES]
}

fn record_rows() -> [u32; RECORD_NUMBERS]
    ensures { result ≡ zeros (128 * record_width) }
{
    [0u32; RECORD_NUMBERS]
}

fn place_rows() -> [u32; 128]
    ensures { result ≡ zeros 128 }
{
    [0u32; 128]
}

fn name_rows() -> [u32; NAME_NUMBERS]
    ensures { result ≡ zeros (32 * name_width) }
{
    [0u32; NAME_NUMBERS]
}

// The live disk, a page for each address, and its marks: every page is stale.
fn live_disk() -> [u8; DISK_BYTES]
    ensures { result ≡ zeros (64 * 256) }
{
    [0u8; DISK_BYTES]
}

fn page_marks() -> [u8; 64]
    ensures { result ≡ zeros 64 }
{
    [0u8; 64]
}

// The input as one batch on a fresh store of 64 pages, 16 branches, 128 records and 128 places.
fn session(input: &[u8], answers: &mut [u8]) -> Ended
    ensures { Replies input.now answers.old result answers.new }
{
    let mut records = record_rows();
    let mut places = place_rows();
    let mut names = name_rows();
    let mut slab = page_slab();
    let mut disk = live_disk();
    let mut marks = page_marks();
    lent::fresh_batch(
        64,
        &mut records,
        &mut places,
        &mut names,
        &mut slab,
        &mut disk,
        &mut marks,
        input,
        answers,
    )
}

fn line(name: &[u8], n: u64) {
    io::write_all(1, name);
    io::print_decimal(1, n);
    io::write_all(1, b"\n");
}

fn main() {
    let mut input = io::large_buffer();
    let n = io::read_full(0, &mut input);
    let mut answers = io::large_buffer();
    let ended = session(&input[..n], &mut answers);
    let head = ended.head;
    let report = ended.report;
    let sent = report.sent;
    io::write_all(1, &answers[..sent]);
    line(b"\nstop ", report.stop as u64);
    line(b"answered ", report.answered as u64);
    line(b"taken ", report.taken as u64);
    line(b"sent ", report.sent as u64);
    line(b"rows read ", report.rows as u64);
    line(b"branches ", head.branches as u64);
    line(b"records ", head.records as u64);
    line(b"now ", head.now as u64);
    line(b"floor ", head.floor as u64);
    line(b"names ", head.names as u64);
}
