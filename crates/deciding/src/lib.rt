// What a reclaim to a floor keeps: the moments that decide it, and the records that are not older than the floor.
#![tactic(auto)]

ghost use Rattle.std.specs.Prelude.{◌≡◌, ◌+◌, ◌≤◌, ◌<◌, length, take};
ghost use Rattle.model.specs.Store.{moments};
ghost use Rattle.rows.specs.Rows.{branch_rows_of, record_rows_of, name_rows_of, BranchesIn, RecordsIn, NamesIn};
ghost use Rattle.branch_marks.specs.Marks.{Filled, Zeros};
ghost use Rattle.deciding.specs.Deciding.{none_older, young_too, Started, Behind};

// Room for the moments that decide: the floor, a start of each of 4,096 branches, and 32 names.
pub fn moments() -> [u32; 4129]
    ensures { Zeros 4129 result }
{
    [0u32; 4129]
}

// The first moments that decide a reclaim: the floor, and the starts above it, newest first; and how many they are.
pub fn starts(bt: &[u32], n: usize, floor: u32, table: &mut [u32]) -> usize
    requires { BranchesIn n bt.now × (n < length table.old) }
    ensures { Started (branch_rows_of bt.now) n floor result table.old table.new }
{
    table[0] = floor;
    let mut c: usize = 1;
    for i in (0..n).rev() {
        let b = rows::branch_at(bt, i);
        if b.start <= floor {
            continue;
        }
        table[c] = b.start;
        c += 1;
    }
    c
}

// The others, behind those c: the moments of k names; and how many they all are.
pub fn named(nt: &[u32], k: usize, c: usize, table: &mut [u32]) -> usize
    requires { NamesIn k nt.now × (c + k ≤ length table.old) }
    ensures { Behind (moments (take k (name_rows_of nt.now))) c result table.old table.new }
{
    for j in 0..k {
        let n = rows::name_at(nt, j);
        table[c + j] = n.moment;
    }
    c + k
}

// Whether none of nr records is older than the floor.
pub fn none_older(rt: &[u32], nr: usize, floor: u32) -> bool
    requires { RecordsIn nr rt.now }
    ensures { result ≡ none_older (record_rows_of rt.now) floor nr }
{
    (0..nr).all(|k| floor <= rows::record_at(rt, k).moment)
}

// Records that are not older than the floor are kept.
pub fn keep_young(rt: &[u32], nr: usize, floor: u32, marks: &mut [u8])
    requires { RecordsIn nr rt.now × (nr ≤ length marks.old) }
    ensures { Filled (young_too (record_rows_of rt.now) floor marks.old) nr marks.old marks.new }
{
    for k in 0..nr {
        if floor <= rows::record_at(rt, k).moment {
            marks[k] = 1;
        }
    }
}
