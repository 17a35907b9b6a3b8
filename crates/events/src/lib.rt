// The events by falling moment: the wanted moments, and the cuts at which rows hang.
#![tactic(auto)]

ghost use Rattle.std.specs.Prelude.{◌≡◌, ◌+◌, ◌*◌, ◌-◌, ◌≤◌, ◌<◌, length};
ghost use Rattle.rows.specs.Rows.{branch_rows_of, BranchesIn};
ghost use Rattle.model.specs.ByNumber.{Line};
ghost use Rattle.branch_marks.specs.Marks.{Held};
ghost use Rattle.sorting.specs.Sorted.{Roomed};
ghost use Rattle.events.specs.Keys.{wanted_key, cut_key, Laid, Keyed, Listed};

// The keys of the wanted moments.
pub fn put_wanted(wanted: &[u32], keys: &mut [u64])
    requires { length wanted.now ≤ length keys.old }
    ensures { Laid (wanted_key wanted.now) 0 (length wanted.now) keys.old keys.new }
{
    for (q, &m) in wanted.iter().enumerate() {
        keys[q] = m as u64 * 4294967296;
    }
}

// The keys of n rows but the first, from `at` on.
pub fn put_cuts(bt: &[u32], n: usize, at: usize, keys: &mut [u64])
    requires { BranchesIn n bt.now × (n ≤ 4096) × (at ≤ 16384) × (0 < n) × (at + n ≤ length keys.old + 1) }
    ensures { Laid (cut_key (branch_rows_of bt.now)) at (n - 1) keys.old keys.new }
{
    for i in 0..n - 1 {
        let b = rows::branch_at(bt, i + 1);
        keys[at + i] = b.cut as u64 * 4294967296 + (i + 1) as u64;
    }
}

// The events in order, and how many they are.
pub fn list(bt: &[u32], n: usize, wanted: &[u32], keys: &mut [u64], room: &mut [u64]) -> usize
    requires branches_in { BranchesIn n bt.now × (n ≤ 4096) × (0 < n) × (length wanted.now ≤ 8192) × (length wanted.now + n ≤ length keys.old + 1) × (length wanted.now + n ≤ length room.old + 1) }
    requires line { Line (branch_rows_of bt.now) n }
    requires held { Held (branch_rows_of bt.now) n wanted.now }
    ensures keyed { Keyed (branch_rows_of bt.now) n wanted.now result keys.new }
    ensures listed { Listed (branch_rows_of bt.now) n wanted.now result keys.old keys.new }
    ensures roomed { Roomed 0 result keys.new room.old room.new }
{
    put_wanted(wanted, keys);
    let at = wanted.len();
    put_cuts(bt, n, at, keys);
    let ne = at + n - 1;
    sorting::sort(keys, room, 0, ne);
    ne
}
