// Requests as numbers.
ghost use Rattle.std.specs.Prelude.{◌≡◌, ◌+◌, ◌*◌, ◌%◌, ◌≤◌, length, slice_index};
ghost use Rattle.trial_words.specs.Request.{Decodes};

use crate::layout::{Numbers, request_at};
use crate::words::{get, plus, put, put_four};

// What a request asks for.
#[derive(Clone, Copy, PartialEq, Eq)]
pub enum Operation {
    Write = 1,
    Mark,
    Revert,
    Read,
    Reclaim,
    GiveName,
    WithdrawName,
}

// The number of no operation.
#[derive(Clone, Copy, PartialEq, Eq)]
pub struct NoOperation(pub u32);

impl TryFrom<u32> for Operation {
    type Error = NoOperation;

    ghost try_from_gives = { Decodes };

    fn try_from(number: u32) -> Result<Operation, NoOperation> {
        match number {
            1 => Ok(Operation::Write),
            2 => Ok(Operation::Mark),
            3 => Ok(Operation::Revert),
            4 => Ok(Operation::Read),
            5 => Ok(Operation::Reclaim),
            6 => Ok(Operation::GiveName),
            7 => Ok(Operation::WithdrawName),
            _ => Err(NoOperation(number)),
        }
    }
}

// A request.
// Kept: five numbers, since the lists have some that ask for nothing, or set a spare bit or what their operation does not use.
#[derive(Clone, Copy, PartialEq, Eq)]
pub struct Request {
    pub operation: u32,
    pub address: u32,
    pub moment: u32,
    pub value: u32,
    pub spare: u32,
}

// A request by the number of its operation, with no spare bit.
pub fn plain(operation: u32, address: u32, moment: u32, value: u32) -> Request
    ensures { result ≡ record { operation = operation; address = address; moment = moment; value = value; spare = 0 } }
{
    Request {
        operation,
        address,
        moment,
        value,
        spare: 0,
    }
}

// A request of each operation.
impl Request {
    // The page at an address is filled with a byte.
    pub fn write(address: u32, value: u32) -> Request
        ensures { result ≡ record { operation = 1; address = address; moment = 0; value = value; spare = 0 } }
    {
        plain(Operation::Write as u32, address, 0, value)
    }

    // The present moment is sealed.
    pub fn mark() -> Request
        ensures { result ≡ record { operation = 2; address = 0; moment = 0; value = 0; spare = 0 } }
    {
        plain(Operation::Mark as u32, 0, 0, 0)
    }

    // The volume is set back to a moment, with the work order 0.
    pub fn revert(moment: u32) -> Request
        ensures { result ≡ record { operation = 3; address = 0; moment = moment; value = 0; spare = 0 } }
    {
        plain(Operation::Revert as u32, 0, moment, 0)
    }

    // The page of an address at a moment.
    pub fn read(address: u32, moment: u32) -> Request
        ensures { result ≡ record { operation = 4; address = address; moment = moment; value = 0; spare = 0 } }
    {
        plain(Operation::Read as u32, address, moment, 0)
    }

    // What lies below a moment goes, but for the named ones.
    pub fn reclaim(floor: u32) -> Request
        ensures { result ≡ record { operation = 5; address = 0; moment = floor; value = 0; spare = 0 } }
    {
        plain(Operation::Reclaim as u32, 0, floor, 0)
    }

    // A moment gets the name of a number.
    pub fn give_name(moment: u32, name: u32) -> Request
        ensures { result ≡ record { operation = 6; address = 0; moment = moment; value = name; spare = 0 } }
    {
        plain(Operation::GiveName as u32, 0, moment, name)
    }

    // The name of a number goes.
    pub fn withdraw_name(name: u32) -> Request
        ensures { result ≡ record { operation = 7; address = 0; moment = 0; value = name; spare = 0 } }
    {
        plain(Operation::WithdrawName as u32, 0, 0, name)
    }
}

// The k-th request of the next batch.
pub fn listed(w: &Numbers, k: u32) -> Request
    ensures { result.operation ≡ slice_index w.now (128 + k % 16 * 8) }
{
    let at = request_at(k);
    Request {
        operation: get(w, at),
        address: get(w, plus(at, 1)),
        moment: get(w, plus(at, 2)),
        value: get(w, plus(at, 3)),
        spare: get(w, plus(at, 4)),
    }
}

// A request becomes the k-th of the next batch.
pub fn put_request(w: &mut Numbers, k: u32, r: Request)
    ensures { length w.new ≡ length w.old }
{
    let at = request_at(k);
    put_four(w, at, r.operation, r.address, r.moment, r.value);
    put(w, plus(at, 4), r.spare);
}

// Bytes of a request: a write's page follows it, or a name.
// Kept: the clause has 15 for each number from 6 on, also where it is no operation's.
pub fn bytes_of(r: Request) -> u32
    ensures { (r.operation ≡ 1 → result ≡ 263) × (6 ≤ r.operation → result ≡ 15) }
{
    match r.operation {
        1 => 263,
        6.. => 15,
        _ => 7,
    }
}
