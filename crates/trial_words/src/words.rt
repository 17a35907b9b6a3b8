// Access to tables that is defined at any index, and arithmetic that is defined at any numbers.
ghost use Rattle.std.specs.Prelude.{◌≡◌, ◌+◌, ◌-◌, ◌%◌, ◌^◌, ◌<◌, ◌++◌, length, slice_index, take, drop, replicate, min};

use crate::layout::{Bytes, Numbers};

// The number at an index that the table has.
pub fn number_at(t: &Numbers, i: u32) -> u32
    requires { i < 5632 }
    ensures { result ≡ slice_index t.now i }
{
    t[i as usize]
}

// The number at an index; 0 past the end.
pub fn get(t: &Numbers, i: u32) -> u32
    ensures { i < 5632 → result ≡ slice_index t.now i }
{
    t.get(i as usize).copied().unwrap_or(0)
}

pub fn put(t: &mut Numbers, i: u32, v: u32)
    ensures { length t.new ≡ length t.old }
{
    let k = i as usize;
    if k < t.len() {
        t[k] = v;
    }
}

// The byte at an index; 256 past the end.
pub fn byte(t: &Bytes, i: u32) -> u32
    ensures { i < 12288 → result ≡ slice_index t.now i }
{
    t.get(i as usize).map_or(256, |b| u32::from(*b))
}

pub fn put_byte(t: &mut Bytes, i: u32, v: u32)
    ensures { length t.new ≡ length t.old }
{
    let k = i as usize;
    if k < t.len() {
        t[k] = (v % 256) as u8;
    }
}

// The n numbers or bytes from an index on, or as many of them as a table has.
pub fn part<T>(t: &[T], i: u32, n: u32) -> &[T]
    ensures { result.now ≡ take n (drop i t.now) }
{
    let from = (i as usize).min(t.len());
    let to = (from + n as usize).min(t.len());
    &t[from..to]
}

// Bytes go to an index and behind it, as many of them as the table has room for.
pub fn put_bytes(t: &mut Bytes, i: u32, bytes: &[u8])
    ensures kept { length t.new ≡ length t.old }
    ensures written { t.new ≡ take i t.old ++ take (length t.old - i) bytes.now ++ drop (i + length bytes.now) t.old }
{
    let from = (i as usize).min(t.len());
    let n = bytes.len().min(t.len() - from);
    t[from..from + n].copy_from_slice(&bytes[..n]);
}

// n bytes from an index on, or as many of them as the table has, become the low byte of a number.
pub fn fill(t: &mut Bytes, i: u32, n: u32, v: u32)
    ensures kept { length t.new ≡ length t.old }
    ensures written { t.new ≡ take i t.old ++ replicate (min n (length t.old - i)) (v % 256) ++ drop (i + n) t.old }
{
    let from = (i as usize).min(t.len());
    let to = (from + n as usize).min(t.len());
    t[from..to].fill((v % 256) as u8);
}

pub fn plus(a: u32, b: u32) -> u32
    ensures { result ≡ (a + b) % 2 ^ 32 }
{
    a.wrapping_add(b)
}

pub fn minus(a: u32, b: u32) -> u32
    ensures { (result + b) % 2 ^ 32 ≡ a }
{
    a.wrapping_sub(b)
}

pub fn remainder(a: u32, b: u32) -> u32
    ensures { 0 < b → result ≡ a % b }
{
    a.checked_rem(b).unwrap_or(0)
}

// n more at an index.
pub fn add(t: &mut Numbers, i: u32, n: u32)
    ensures { length t.new ≡ length t.old }
{
    put(t, i, plus(get(t, i), n));
}

pub fn put_two(t: &mut Numbers, i: u32, a: u32, b: u32)
    ensures { length t.new ≡ length t.old }
{
    put(t, i, a);
    put(t, plus(i, 1), b);
}

pub fn put_four(t: &mut Numbers, i: u32, a: u32, b: u32, c: u32, d: u32)
    ensures { length t.new ≡ length t.old }
{
    put_two(t, i, a, b);
    put_two(t, plus(i, 2), c, d);
}
