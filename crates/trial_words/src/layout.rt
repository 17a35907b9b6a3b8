// Where each number of a trial stands in its table of numbers, and each byte in its table of bytes.
ghost use Rattle.std.specs.Prelude.{◌≡◌, ◌+◌, ◌*◌, ◌%◌, ◌<◌};

// The two tables: what a trial knows and lends as numbers, and as bytes.
// Kept: flat, since the trials of faults and of broken stores change them number by number, by index, which no struct of named fields
// allows; and apart, since the comparison writes numbers while it reads bytes.
pub type Numbers = [u32; 5632];

pub type Bytes = [u8; 12288];

// The store's head (6 numbers), and what its last batch reported.
pub const HEAD: u32 = 0;

pub const HEAD_BRANCHES: u32 = 1;

pub const HEAD_RECORDS: u32 = 2;

pub const HEAD_NOW: u32 = 3;

pub const HEAD_FLOOR: u32 = 4;

pub const HEAD_NAMES: u32 = 5;

pub const STOP: u32 = 6;

// The lengths lent: numbers of branch rows, of record rows, of place rows, of name rows, and bytes of the slab.
pub const BRANCH_LENGTH: u32 = 10;

pub const RECORD_LENGTH: u32 = 11;

pub const PLACE_LENGTH: u32 = 12;

pub const NAME_LENGTH: u32 = 13;

pub const SLAB_LENGTH: u32 = 14;

// The sizes on trial: pages of the volume, branch rows, record rows, place rows.
pub const SIZE: u32 = 16;

pub const BRANCH_ROWS: u32 = 17;

pub const RECORD_ROWS: u32 = 18;

pub const PLACE_ROWS: u32 = 19;

// The reference: moments count from the base; now and floor; branches; held pairs; names given.
pub const BASE: u32 = 20;

pub const NOW: u32 = 21;

pub const FLOOR: u32 = 22;

pub const BRANCHES: u32 = 24;

pub const HELD: u32 = 25;

pub const NAMES: u32 = 26;

// The next batch: requests listed, bytes of all, bytes handed in, bytes of the answer area, and by what the bytes are cut (0: not).
pub const COUNT: u32 = 28;

pub const TOTAL: u32 = 29;

pub const INPUT: u32 = 30;

pub const AREA: u32 = 31;

pub const CUT: u32 = 36;

// What the reference expects of the batch: stop number, requests answered, their bytes, bytes of the answers.
pub const DUE: u32 = 32;

pub const ANSWERED: u32 = 33;

pub const TAKEN: u32 = 34;

pub const SENT: u32 = 35;

// How many record rows the table checks read, as the batch reported, and as the reference expects.
pub const ROWS_READ: u32 = 38;

pub const ROWS_DUE: u32 = 39;

// The family: how lists are made, letters, length, lists, seed, first letter; the number of the present list; how many names are drawn.
pub const MODE: u32 = 40;

pub const LETTERS: u32 = 41;

pub const LENGTH: u32 = 42;

pub const LISTS: u32 = 43;

pub const SEED: u32 = 44;

pub const FIRST: u32 = 45;

pub const NUMBER: u32 = 46;

pub const CALLED: u32 = 47;

// The counts: lists run, their batches, lists that differ, differences in the present list, snapshots read back.
pub const RUN: u32 = 48;

pub const BATCHES: u32 = 49;

pub const DIFFER: u32 = 50;

pub const WRONG: u32 = 51;

pub const READ: u32 = 52;

// What the next turn does; the batch of the list, the snapshot to read back, the change to try.
pub const TURN: u32 = 53;

pub const BATCH: u32 = 54;

pub const SNAPSHOT: u32 = 55;

pub const CHANGE: u32 = 56;

// Whether changes are tried at the end of each list, and the number that was replaced last.
pub const CHANGES: u32 = 57;

pub const REPLACED: u32 = 58;

// The fault that the family puts in (0: none), where it stands, whether the present list has had it, and the lists that had it.
pub const FAULT: u32 = 59;

pub const SPOT: u32 = 60;

pub const FAULTY: u32 = 61;

pub const FAULTS: u32 = 62;

// How often a moment below the floor was accepted, by operation.
pub const BELOW: u32 = 64;

// How often a branch went in a reclaim, and its cut was taken over; how often one stayed for a named moment only, or for a record only.
pub const WENT: u32 = 72;

pub const TAKEN_OVER: u32 = 73;

pub const FOR_NAME: u32 = 74;

pub const FOR_RECORD: u32 = 75;

// The weekly run: how many weeks the floor is behind, the largest count of branches; the lists of work orders, and the longest.
pub const BEHIND: u32 = 76;

pub const LARGEST: u32 = 77;

pub const LISTED: u32 = 78;

pub const LONGEST: u32 = 79;

// The place that the batch took last; how often another choice would have given another place, for four choices; the 16 places.
pub const LAST_TAKEN: u32 = 37;

pub const TOLD: u32 = 92;

pub const PLACES: u32 = 112;

// The head that is due (6 numbers), and how much a batch changed of each table, of the slab, and of the live disk and its marks.
pub const HEAD_DUE: u32 = 80;

pub const TOUCHED: u32 = 86;

// Branch rows (21 of four numbers) and their counts: the reference's; the store's before a batch and as it gave them, where a fault is put in.
pub const ROWS: u32 = 256;

pub const ROWS_BEFORE: u32 = 344;

pub const ROWS_GIVEN: u32 = 528;

pub const COUNT_BEFORE: u32 = 448;

pub const COUNT_GIVEN: u32 = 449;

// The list of work orders that is due at a moment: its refusal, how many orders, and the orders (16 at most); how many rows of the
// moment's way are gone.
pub const LIST_DUE: u32 = 428;

pub const LIST_COUNT: u32 = 429;

pub const LIST_ORDERS: u32 = 430;

pub const LIST_GONE: u32 = 446;

// Of refusals 3, how often each rule was the one that the last record row read breaks, and how often a row behind it breaks one too;
// how often 2 refused a store with records.
pub const BROKEN: u32 = 456;

pub const BROKEN_BEHIND: u32 = 472;

pub const UNREAD: u32 = 473;

// The live disk: the lengths lent, of the disk in bytes and of its marks.
pub const DISK_LENGTH: u32 = 480;

pub const MARK_LENGTH: u32 = 481;

// A copying step: its budget, and what it reported, a refusal and a count; where faults are put in, the marks before it.
pub const BUDGET: u32 = 484;

pub const COPIED: u32 = 485;

pub const MARKS_BEFORE: u32 = 488;

// The live disk of the reference: the byte that fills each page, and its mark. Then the marks that are lent, of which there can be eight.
pub const DISK_DUE: u32 = 492;

pub const MARKS_DUE: u32 = 496;

pub const MARK_TABLE: u32 = 500;

// The live reads so far: from the disk, blank there, from the slab, none there, refused; the steps, those with stale pages left; the
// pages that they brought to date, and how many of these as blank. Where the generator of budgets stands.
pub const LIVE_READS: u32 = 512;

pub const STEPS: u32 = 517;

pub const LEFT_STALE: u32 = 518;

pub const TURNED: u32 = 519;

pub const TURNED_BLANK: u32 = 520;

pub const BUDGET_SEED: u32 = 521;

// Where the generator of work orders and of the lists' lengths stands.
pub const ORDER_SEED: u32 = 522;

// The lists of work orders asked for in a turn: how many, and of each its moment and the bytes lent (48 of two numbers).
pub const ASKED: u32 = 639;

pub const ASKS: u32 = 640;

// The lists so far: given, by the number of orders; refused, by the refusal; given where a row of the moment's way is gone, and how many
// such rows; given where 18 refuses a batch.
pub const LISTS_GIVEN: u32 = 616;

pub const LISTS_REFUSED: u32 = 736;

pub const SHORTER: u32 = 752;

pub const ABSENT: u32 = 753;

pub const DESPITE_DISK: u32 = 754;

// How often a work order was what 2 refused: the first row's, another's; and how often one above 65,535 stood past the count.
pub const ORDER_REFUSED: u32 = 755;

pub const ORDER_PAST: u32 = 757;

// The accepted reverts, by work order: 0, 1, 255, 256, 65,535, any other.
pub const ORDERS_TAKEN: u32 = 758;

// The way of each moment, for 256 of them: the branch that it is in, by the branch's first moment; where it is the first moment, 256 times
// the branch that it was cut from, and 65,536 times the work order.
pub const WAYS: u32 = 768;

// The tables that are lent to the store.
pub const BRANCH_TABLE: u32 = 5120;

pub const RECORD_TABLE: u32 = 5568;

pub const PLACE_TABLE: u32 = 5248;

pub const NAME_TABLE: u32 = 5312;

// The name rows of the reference (33 of three numbers, the last zero), and how often each refusal or stop came up.
pub const NAME_ROWS: u32 = 5424;

pub const SEEN: u32 = 5536;

// In the table of bytes: the slab, what is handed in, the live disk (1280 bytes), and the answer area.
pub const SLAB: u32 = 0;

pub const INPUT_BYTES: u32 = 4352;

pub const DISK: u32 = 6656;

pub const ANSWERS: u32 = 8192;

// What a turn does: a fresh store; the next batch of the list; a read of every address at a moment; a batch on a changed store; live reads
// and a copying step, after the batch of a list, or on a changed store that is refused; lists of work orders, after the batch of a list,
// or on a changed store.
// Kept: words of the flat table, which trial_turns puts and trial_faults compares.
pub const FRESH: u32 = 0;

pub const PLAY: u32 = 1;

pub const READ_BACK: u32 = 2;

pub const CHANGED: u32 = 3;

pub const ENDED: u32 = 4;

pub const LIVE: u32 = 5;

pub const LIVE_REFUSED: u32 = 6;

pub const ORDERS: u32 = 7;

pub const ORDERS_CHANGED: u32 = 8;

// The last moment, and the largest number.
pub const LAST: u32 = 4294967295;

// How the lists of a family are made, by the number at MODE: a batch for each request of a short list; one batch for all; from the
// generator; one batch, cut anywhere; an operator who sets back; one batch, with any space for its answers.
#[derive(Clone, Copy, PartialEq, Eq)]
pub enum Mode {
    Each,
    All,
    Drawn,
    Cut,
    Back,
    Space,
}

impl From<u32> for Mode {
    ghost use Rattle.trial_words.specs.Layout.{mode_number};
    ghost use Rattle.trial_words.specs.declared.layout.Mode.TheVariants.{Drawn};

    ghost from_gives = { λ n mode. (n < 6 → mode_number mode ≡ n) × (5 < n → mode ≡ Drawn) };

    fn from(number: u32) -> Mode {
        match number {
            0 => Mode::Each,
            1 => Mode::All,
            3 => Mode::Cut,
            4 => Mode::Back,
            5 => Mode::Space,
            _ => Mode::Drawn,
        }
    }
}

// A batch that has not stopped.
pub const RUNNING: u32 = 99;

// Names at most, and the numbers of their rows.
pub const MOST_NAMES: u32 = 32;

pub const NAME_NUMBERS: u32 = 96;

// Bytes of an answer with a page: five, the date in four, and the page.
pub const PAGE_ANSWER: u32 = 265;

// What the answer area holds before a batch.
pub const BLANK: u32 = 165;

// The k-th request of the next batch: five numbers.
pub(crate) fn request_at(k: u32) -> u32
    ensures { result ≡ 128 + k % 16 * 8 }
{
    128 + k % 16 * 8
}

// A held pair: 0, or one more than the byte of its page, with 512 for each place below its own.
pub fn held_at(i: u32, a: u32) -> u32
    ensures { result ≡ 1024 + i % 256 * 4 + a % 4 }
{
    1024 + i % 256 * 4 + a % 4
}

pub fn record_row(i: u32) -> u32
    ensures { result ≡ 5568 + i % 65536 * 3 }
{
    RECORD_TABLE + i % 65536 * 3
}

// What a live read of an address gave, in the answer area: the page, the refusal, and 1 where there is a page.
pub fn live_at(a: u32) -> u32
    ensures { result ≡ 8192 + a % 8 * 260 }
{
    ANSWERS + a % 8 * 260
}

// A page of the live disk.
pub fn disk_page(a: u32) -> u32
    ensures { result ≡ 6656 + a % 4 * 256 }
{
    DISK + a % 4 * 256
}

// The k-th list that is asked for in a turn: its moment and the bytes lent.
pub fn asked_at(k: u32) -> u32
    ensures { result ≡ 640 + k % 48 * 2 }
{
    ASKS + k % 48 * 2
}

// What the k-th list of a turn gave, in the answer area: the bytes lent, 48 at most, and in the 73rd its refusal, in the two behind it the
// count.
pub fn list_at(k: u32) -> u32
    ensures { result ≡ 8192 + k % 48 * 80 }
{
    ANSWERS + k % 48 * 80
}

// A row of the name table lent.
pub fn name_row(k: u32) -> u32
    ensures { result ≡ 5312 + k % 33 * 3 }
{
    NAME_TABLE + k % 33 * 3
}
