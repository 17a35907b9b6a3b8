// Name rows in the table of numbers, 33 from an index on: of each the two numbers of the name, and its moment. Behind the last they are
// zero.
ghost use Rattle.std.specs.Prelude.{◌≡◌, ◌+◌, ◌*◌, ◌/◌, ◌%◌, ◌^◌, ◌<◌, slice_index};

use crate::layout::Numbers;
use crate::words::{get, plus};

// A name: two numbers.
#[derive(Clone, Copy, PartialEq, Eq, Default)]
pub struct Name {
    pub high: u32,
    pub low: u32,
}

// The value of a naming or of a withdrawal is the number of a name: its two numbers have eight different bytes.
impl From<u32> for Name {
    ghost from_gives = { λ n name. name ≡ record { high = n / 16 % 16 * 16909060; low = n % 16 * 84281096 } };

    fn from(number: u32) -> Name {
        Name {
            high: number / 16 % 16 * 16909060,
            low: number % 16 * 84281096,
        }
    }
}

// Where the k-th row of those at an index stands.
pub fn row_at(at: u32, k: u32) -> u32
    ensures { result ≡ (at + k % 33 * 3) % 2 ^ 32 }
{
    plus(at, k % 33 * 3)
}

// The name in the k-th row of those at an index.
pub fn name_of(w: &Numbers, at: u32, k: u32) -> Name
    ensures { at + k % 33 * 3 < 5631 → result ≡ record { high = slice_index w.now (at + k % 33 * 3); low = slice_index w.now (at + k % 33 * 3 + 1) } }
{
    let row = row_at(at, k);
    Name {
        high: get(w, row),
        low: get(w, plus(row, 1)),
    }
}

// The moment in the k-th row of those at an index; 0 behind the last.
pub fn moment_of(w: &Numbers, at: u32, k: u32) -> u32
    ensures { at + k % 33 * 3 < 5630 → result ≡ slice_index w.now (at + k % 33 * 3 + 2) }
{
    get(w, plus(row_at(at, k), 2))
}
