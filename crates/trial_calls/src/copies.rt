// Values copied and compared, as many as both sides have.
ghost use Rattle.std.specs.Prelude.{◌≡◌, ◌++◌, ◌%◌, ◌^◌, length, replicate, take, drop};

// A length as a number.
pub(crate) fn number(n: usize) -> u32
    ensures { result ≡ n % 2 ^ 32 }
{
    (n % 4294967296) as u32
}

// The first values of a slice, as many as a number says.
pub(crate) fn first<T>(s: &[T], n: u32) -> &[T]
    ensures { result.now ≡ take n s.now }
{
    let n = s.len().min(n as usize);
    &s[..n]
}

// The same, to be written.
pub(crate) fn first_mut<T>(s: &mut [T], n: u32) -> &mut [T]
    ensures { result.now ≡ take n s.old }
{
    let n = s.len().min(n as usize);
    &mut s[..n]
}

// The values of a slice from an index on.
pub(crate) fn behind<T>(s: &[T], at: u32) -> &[T]
    ensures { result.now ≡ drop at s.now }
{
    let at = s.len().min(at as usize);
    &s[at..]
}

// As many values as both sides have.
pub(crate) fn copy<T: Copy>(from: &[T], to: &mut [T])
    ensures { to.new ≡ take (length to.old) from.now ++ drop (length from.now) to.old }
{
    let n = from.len().min(to.len());
    to[..n].copy_from_slice(&from[..n]);
}

// How many values differ, of as many as both sides have. Mostly none does, and that is seen by one comparison.
pub(crate) fn differing<T: Copy + PartialEq>(s: &[T], t: &[T]) -> u32 {
    let n = s.len().min(t.len());
    if s[..n] == t[..n] {
        return 0;
    }
    number(s.iter().zip(t).filter(|(a, b)| a != b).count())
}

// N values from an index on; past the end there are blanks.
pub(crate) fn area<T: Copy, const N: usize>(from: &[T], at: u32, blank: T) -> [T; N]
    ensures { result ≡ take N (drop at from.now) ++ drop (length (drop at from.now)) (replicate N blank) }
{
    let mut values = [blank; N];
    copy(behind(from, at), &mut values);
    values
}

// Values go to their index.
pub(crate) fn put_back<T: Copy>(to: &mut [T], at: u32, values: &[T])
    ensures { to.new ≡ take at to.old ++ (take (length (drop at to.old)) values.now ++ drop (length values.now) (drop at to.old)) }
{
    let at = to.len().min(at as usize);
    copy(values, &mut to[at..]);
}

// Values go to their index. Answers how many of them differ from what stands there.
pub(crate) fn save<T: Copy + PartialEq>(to: &mut [T], at: u32, values: &[T]) -> u32
    ensures { length to.new ≡ length to.old }
{
    let touched = differing(behind(to, at), values);
    put_back(to, at, values);
    touched
}

// What a live read gave: its page, its refusal, and 1 where there is a page, 2 where the part is neither a page nor empty.
pub(crate) fn note_read(page: &[u8], refusal: u32, area: &mut [u8]) {
    copy(page, area);
    put_in(area, 256, refusal);
    put_in(
        area,
        257,
        match page.len() {
            256 => 1,
            0 => 0,
            _ => 2,
        },
    );
}

// A byte goes to its index, where there is one.
fn put_in(area: &mut [u8], i: usize, n: u32)
    ensures { length area.new ≡ length area.old }
{
    if i < area.len() {
        area[i] = (n % 256) as u8;
    }
}

// What a list of work orders gave besides its bytes: its refusal, and its count in two bytes, 65,535 where it is more.
pub(crate) fn note_list(refusal: u32, count: u32, area: &mut [u8]) {
    let n = count.min(65535);
    put_in(area, 72, refusal);
    put_in(area, 73, n / 256);
    put_in(area, 74, n);
}
