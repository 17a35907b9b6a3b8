// The bytes of the requests that are listed, and of the live disk that a list begins with.
ghost use Rattle.std.specs.Prelude.{◌≡◌, length, get_or};

use trial_reference::live;
use trial_words::layout::{
    Bytes, COUNT, CUT, INPUT, INPUT_BYTES, MARK_TABLE, Numbers, TOTAL, disk_page,
};
use trial_words::names::Name;
use trial_words::request::{Operation, Request, bytes_of, listed};
use trial_words::words::{fill, get, number_at, plus, put, put_bytes, remainder};

// Operation 3 bits, address 16, moment 32, spare 5.
fn packed(r: Request) -> u64 {
    u64::from(r.operation % 8) << 53
        | u64::from(r.address % 65536) << 37
        | u64::from(r.moment) << 5
        | u64::from(r.spare % 32)
}

// The k-th request's bytes go behind those of the requests before it.
fn encode_one(w: &mut Numbers, b: &mut Bytes, k: u32) {
    let r = listed(w, k);
    let at = get(w, TOTAL);
    put_encoded(b, plus(INPUT_BYTES, at), r);
    put(w, TOTAL, plus(at, bytes_of(r)));
}

// The bytes of a request: its seven, then a write's page, or a name.
fn put_encoded(b: &mut Bytes, at: u32, r: Request) {
    put_bytes(b, at, &packed(r).to_be_bytes()[1..]);
    match Operation::try_from(r.operation) {
        Ok(Operation::Write) => fill(b, plus(at, 7), 256, r.value),
        Ok(Operation::GiveName | Operation::WithdrawName) => {
            let name = Name::from(r.value);
            put_bytes(b, plus(at, 7), &name.high.to_be_bytes());
            put_bytes(b, plus(at, 11), &name.low.to_be_bytes());
        }
        _ => {}
    }
}

// All requests listed, as bytes, and how many of the bytes are handed in. Answers that number.
pub fn encode(w: &mut Numbers, b: &mut Bytes) -> u32
    ensures { result ≡ get_or w.new 30 0 }
{
    put(w, TOTAL, 0);
    for k in 0..get(w, COUNT) {
        encode_one(w, b, k);
    }
    put(w, INPUT, handed_in(get(w, TOTAL), get(w, CUT)));
    number_at(w, INPUT)
}

fn handed_in(total: u32, by: u32) -> u32 {
    if by == 0 {
        total
    } else {
        remainder(by, plus(total, 1))
    }
}

// The live disk and its marks, as the reference has them.
pub fn lay_disk(w: &mut Numbers, b: &mut Bytes)
    ensures w_len_unchanged { length w.new ≡ length w.old }
    ensures b_len_unchanged { length b.new ≡ length b.old }
{
    for a in 0..4u32 {
        fill(b, disk_page(a), 256, live::filling(w, a));
        put(w, MARK_TABLE + a, live::mark(w, a));
    }
}
