// Answers as bytes: the answer writer.
#![tactic(auto)]

ghost use Rattle.std.specs.Prelude.{◌≡◌, List, ℕ, ◌+◌, ◌*◌, ◌≤◌, ◌<◌, length};
ghost use Rattle.model.specs.Store.{page_at};
ghost use Rattle.rows.specs.View.{found_of};
ghost use Rattle.wire.specs.Front.{in_front};
ghost use Rattle.answering.specs.Answers.{head_bytes, Lies, sent};

use rows::{Found, Outcome};

// The bytes of src go to the front of out.
pub fn copy(out: &mut [u8], src: &[u8])
    requires { length src.now ≤ length out.old }
    ensures { out.new ≡ in_front src.now out.old }
{
    // Kept: the library's copy_from_slice calls memmove, which the archive for C would then need from outside.
    for i in 0..src.len() {
        out[i] = src[i];
    }
}

// The five bytes of an answer without its page go to the front of out.
pub fn put_head(out: &mut [u8], refusal: u32, present: u32, value: u32)
    requires { (5 ≤ length out.old) × (refusal < 64) × (present < 2) }
    ensures { out.new ≡ in_front (head_bytes refusal present value) out.old }
{
    out[0] = (refusal * 4 + present * 2) as u8;
    wire::put_number(&mut out[1..], value);
}

// The page at a place of the slab goes to the front of out.
pub fn put_page(out: &mut [u8], slab: &[u8], place: u32)
    requires { (256 ≤ length out.old) × (256 * place + 256 ≤ length slab.now) }
    ensures { out.new ≡ in_front (page_at slab.now place) out.old }
{
    let at = place as usize * 256;
    copy(out, &slab[at..at + 256]);
}

// How many bytes the answer of an outcome takes.
pub fn answer_size(r: Outcome) -> usize
    ensures { (slab : List ℕ) → Lies (found_of r.found) slab → result ≡ length (sent r slab) }
{
    let found = r.found;
    match found {
        Found::Nothing => 5,
        Found::Row(_) => 265,
    }
}

// The answer of an outcome goes to the front of out; the result is its length.
pub fn put_answer(out: &mut [u8], slab: &[u8], r: Outcome) -> usize
    requires { (r.refusal < 64) × Lies (found_of r.found) slab.now × (length (sent r slab.now) ≤ length out.old) }
    ensures { (result ≡ length (sent r slab.now)) × (out.new ≡ in_front (sent r slab.now) out.old) }
{
    let found = r.found;
    match found {
        Found::Nothing => {
            put_head(out, r.refusal, 0, r.value);
            5
        }
        Found::Row(row) => {
            put_head(out, r.refusal, 1, r.value);
            wire::put_number(&mut out[5..], row.moment);
            put_page(&mut out[9..], slab, row.place);
            265
        }
    }
}
