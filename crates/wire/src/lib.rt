// Requests as bytes: the request reader, and numbers as bytes.
#![tactic(auto)]

ghost use Rattle.std.specs.Prelude.{◌≡◌, cond, List, eqb, leb, ℕ, ◌+◌, ◌≤◌, ◌<◌, length, take, drop};
ghost use Rattle.model.specs.Wire.{number, bytes, by_operation, parse};
ghost use Rattle.wire.specs.Requests.{parsed_of, Spells};
ghost use Rattle.wire.specs.Front.{in_front};

use model::Name;

// A request; a revert has a moment and a work order; a write's page stays in the input, behind the seven bytes; a name is read as two numbers.
#[derive(Clone, Copy)]
pub enum Request {
    Write(u32),
    Mark,
    Revert(u32, u32),
    ReadAt(u32, u32),
    Reclaim(u32),
    Give(Name),
    Withdraw(u32, u32),
}

// What stands at the front of an input: its end, a stop number, or a request with its length in bytes.
#[derive(Clone, Copy)]
pub enum Parsed {
    End,
    Stop(u32),
    One(Request, usize),
}

fn wide(x: u8) -> u64
    ensures { result ≡ x }
{
    x as u64
}

// The number that at most eight bytes spell, most significant first.
pub fn get_number(s: &[u8]) -> u64
    requires { length s.now ≤ 8 }
    ensures { result ≡ number 0 s.now }
{
    let mut n: u64 = 0;
    for i in 0..s.len() {
        n = n * 256 + wide(s[i]);
    }
    n
}

// A request of seven bytes; unused is the sum of the spare bits and of the fields that its operation does not use.
fn short(q: Request, unused: u64) -> Parsed
    ensures { result ≡ cond (eqb unused 0) (Parsed.One q 7) (Parsed.Stop 13) }
{
    if unused == 0 {
        return Parsed::One(q, 7);
    }
    Parsed::Stop(13)
}

// A request that more bytes follow; left is what the input has behind the seven bytes.
fn followed(q: Request, unused: u64, left: usize, more: usize) -> Parsed
    requires { more ≤ 256 }
    ensures { result ≡ cond (eqb unused 0) (cond (leb more left) (Parsed.One q (7 + more)) (Parsed.Stop 11)) (Parsed.Stop 13) }
{
    let spare = unused != 0;
    let cut = left < more;
    if spare {
        Parsed::Stop(13)
    } else if cut {
        Parsed::Stop(11)
    } else {
        Parsed::One(q, 7 + more)
    }
}

// The number that the 8 bytes behind the seven spell; 0 where there are fewer.
fn name_number(part: &[u8]) -> u64
    ensures { 15 ≤ length part.now → result ≡ number 0 (take 8 (drop 7 part.now)) }
{
    if part.len() < 15 {
        return 0;
    }
    get_number(&part[7..15])
}

// The request of an operation with its fields; high and low are the numbers of the name behind the seven bytes.
fn by_operation(
    operation: u64,
    a: u64,
    m: u64,
    spare: u64,
    left: usize,
    high: u32,
    low: u32,
) -> Parsed
    requires { (a < 65536) × (m < 4294967296) × (spare < 32) }
    ensures { (part : List ℕ) → length part ≡ 7 + left → Spells part high low → parsed_of part result ≡ by_operation operation a m spare (drop 7 part) }
{
    match operation {
        1 => followed(Request::Write(a as u32), m + spare, left, 256),
        2 => short(Request::Mark, a + m + spare),
        3 => short(Request::Revert(m as u32, a as u32), spare),
        4 => short(Request::ReadAt(a as u32, m as u32), spare),
        5 => short(Request::Reclaim(m as u32), a + spare),
        6 => {
            let name = Name {
                high,
                low,
                moment: m as u32,
            };
            followed(Request::Give(name), a + spare, left, 8)
        }
        7 => followed(Request::Withdraw(high, low), a + m + spare, left, 8),
        _ => Parsed::Stop(12),
    }
}

// Reads the request at the front of what is left of a batch: operation 3 bits, address 16, moment 32, spare 5.
pub fn read_request(part: &[u8]) -> Parsed
    ensures { parsed_of part.now result ≡ parse part.now }
{
    if part.len() == 0 {
        return Parsed::End;
    }
    if part.len() < 7 {
        return Parsed::Stop(11);
    }
    let n = get_number(&part[..7]);
    let name = name_number(part);
    by_operation(
        n / 9007199254740992 % 8,
        n / 137438953472 % 65536,
        n / 32 % 4294967296,
        n % 32,
        part.len() - 7,
        (name / 4294967296 % 4294967296) as u32,
        (name % 4294967296) as u32,
    )
}

// A number as four bytes, most significant first, goes to the front of out.
pub fn put_number(out: &mut [u8], x: u32)
    requires { 4 ≤ length out.old }
    ensures { out.new ≡ in_front (bytes 4 x) out.old }
{
    out[0] = (x / 16777216 % 256) as u8;
    out[1] = (x / 65536 % 256) as u8;
    out[2] = (x / 256 % 256) as u8;
    out[3] = (x % 256) as u8;
}
