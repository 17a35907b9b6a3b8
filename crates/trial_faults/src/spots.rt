// Where a fault can stand.
ghost use Rattle.std.specs.Prelude.{◌≡◌, ◌+◌, ◌*◌, ◌%◌, ◌^◌, IfSome};
ghost use Rattle.trial_faults.specs.Spots.{rows_number, spot_number};

use trial_words::words::plus;

// A branch row gone, one with another cut, all as they were, or one with another work order.
#[derive(Clone, Copy)]
pub(crate) enum Rows {
    Gone(u32),
    Recut(u32),
    AsBefore,
    Reordered(u32),
}

// An index of the table of numbers, or of the table of bytes; the first two records, or the first two names, in each other's row; a record's
// page in another free place; the branch rows; the marks of two pages in each other's place; the first two pages of the live reads; a list
// of work orders.
#[derive(Clone, Copy)]
pub(crate) enum Spot {
    Number(u32),
    Byte(u32),
    Records,
    Names,
    Page { from: u32, to: u32 },
    BranchRows(Rows),
    Marks(u32, u32),
    Reads,
    List(u32),
}

// The number of no spot.
pub(crate) const NOWHERE: u32 = 4294967295;

// The first number of the spots of a kind that have one number or two.
const BYTES: u32 = 65536;

const RECORDS: u32 = 131072;

const PAGES: u32 = 131073;

const NAMES: u32 = 131584;

const GONE: u32 = 132096;

const RECUT: u32 = 132128;

const AS_BEFORE: u32 = 132160;

const REORDERED: u32 = 132192;

const MARKS: u32 = 133120;

const READS: u32 = 133376;

const LISTS: u32 = 134144;

// Two numbers below 16 as one.
fn pair(i: u32, j: u32) -> u32
    ensures { result ≡ i % 16 * 16 + j % 16 }
{
    i % 16 * 16 + j % 16
}

impl From<Rows> for u32 {
    ghost from_gives = { λ rows n. n ≡ rows_number rows % 2 ^ 32 };

    fn from(rows: Rows) -> u32 {
        match rows {
            Rows::Gone(k) => plus(GONE, k),
            Rows::Recut(k) => plus(RECUT, k),
            Rows::AsBefore => AS_BEFORE,
            Rows::Reordered(k) => plus(REORDERED, k),
        }
    }
}

impl From<Spot> for u32 {
    ghost from_gives = { λ spot n. n ≡ spot_number spot % 2 ^ 32 };

    fn from(spot: Spot) -> u32 {
        match spot {
            Spot::Number(i) => i,
            Spot::Byte(i) => plus(BYTES, i),
            Spot::Records => RECORDS,
            Spot::Names => NAMES,
            Spot::Page { from, to } => PAGES + pair(from, to),
            Spot::BranchRows(rows) => u32::from(rows),
            Spot::Marks(i, j) => MARKS + pair(i, j),
            Spot::Reads => READS,
            Spot::List(k) => plus(LISTS, k),
        }
    }
}

impl Spot {
    // The spot of a number.
    pub(crate) fn numbered(n: u32) -> Option<Spot>
        ensures { IfSome result (λ spot. spot_number spot ≡ n) }
    {
        match n {
            0..=65535 => Some(Spot::Number(n)),
            65536..=131071 => Some(Spot::Byte(n - BYTES)),
            RECORDS => Some(Spot::Records),
            131073..=131328 => Some(Spot::Page {
                from: (n - PAGES) / 16,
                to: (n - PAGES) % 16,
            }),
            NAMES => Some(Spot::Names),
            132096..=132127 => Some(Spot::BranchRows(Rows::Gone(n - GONE))),
            132128..=132159 => Some(Spot::BranchRows(Rows::Recut(n - RECUT))),
            AS_BEFORE => Some(Spot::BranchRows(Rows::AsBefore)),
            132192..=132223 => Some(Spot::BranchRows(Rows::Reordered(n - REORDERED))),
            133120..=133375 => Some(Spot::Marks((n - MARKS) / 16, (n - MARKS) % 16)),
            READS => Some(Spot::Reads),
            134144..=134191 => Some(Spot::List(n - LISTS)),
            _ => None,
        }
    }
}
