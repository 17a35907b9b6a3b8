// The live disk follows the requests of a batch: a write goes to both, a revert makes every page stale.
#![tactic(auto)]

ghost use Rattle.std.specs.Prelude.{◌≡◌, map};
ghost use Rattle.live.specs.Live.{disk_of, staled, following};
ghost use Rattle.wire.specs.Requests.{request_of};
ghost use Rattle.following.specs.Lands.{Lands};

use wire::Request;

// Every page becomes stale; blank marks stay.
fn stale_all(marks: &mut [u8])
    ensures { marks.new ≡ map staled marks.old }
{
    for m in marks.iter_mut() {
        *m -= *m % 2;
    }
}

// Disk and marks follow a request that was answered with this refusal, or 0; part is the input from it on, in which a write's page
// stands.
pub fn follow(disk: &mut [u8], marks: &mut [u8], part: &[u8], q: Request, refusal: u32)
    requires { refusal ≡ 0 → Lands (request_of part.now q) (disk_of disk.old marks.old) }
    ensures { disk_of disk.new marks.new ≡ following (disk_of disk.old marks.old) (request_of part.now q) refusal }
{
    if refusal != 0 {
        return;
    }
    match q {
        Request::Write(a) => {
            let i = a as usize;
            writing::put_page(disk, i, &part[7..263]);
            marks[i] = 1;
        }
        Request::Mark => {}
        Request::Revert(_, _) => {
            stale_all(marks);
        }
        Request::ReadAt(_, _) => {}
        Request::Reclaim(_) => {}
        Request::Give(_) => {}
        Request::Withdraw(_, _) => {}
    }
}
