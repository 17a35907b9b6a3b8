// The branches of the weekly run as the reverts make them, none of which goes: how many are on the way from now to the first.
ghost use Rattle.std.specs.Prelude.{◌≤◌};

use crate::{WEEKS, begins};
use trial_words::layout::Numbers;
use trial_words::words::{get, put};

// After how many weeks so many branches are on the way; 0 where that takes more than a hundred years.
// Kept: 0 in place of None, since the clause of this public function bounds its result as a number.
pub fn full_after(rows: u32) -> u32
    ensures { result ≤ 5218 }
{
    let mut starts: Numbers = [0; 5632];
    let mut parents: Numbers = [0; 5632];
    for k in 0..WEEKS {
        make(&mut starts, &mut parents, k, k + 1);
        if way(&parents, k + 1) >= rows {
            return k + 1;
        }
    }
    0
}

// The week's revert makes a branch, whose parent is the branch that holds the moment reverted to.
fn make(starts: &mut Numbers, parents: &mut Numbers, week: u32, branch: u32) {
    let parent = holder(starts, branch, begins(week));
    put(parents, branch, parent);
    put(starts, branch, begins(branch));
}

// The newest of n branches that does not start behind a moment.
fn holder(starts: &Numbers, n: u32, moment: u32) -> u32 {
    (0..n)
        .rev()
        .find(|k| get(starts, *k) <= moment)
        .unwrap_or(0)
}

// How many branches are on the way from one to the first, which is branch 0.
fn way(parents: &Numbers, branch: u32) -> u32 {
    let mut b = branch;
    for n in 1..5632u32 {
        if b == 0 {
            return n;
        }
        b = get(parents, b);
    }
    5632
}
