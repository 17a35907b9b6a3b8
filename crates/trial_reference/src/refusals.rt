// The refusals of a request.
ghost use Rattle.std.specs.Prelude.{◌≡◌, ◌≤◌, MatchOption};
ghost use Rattle.trial_reference.specs.Refusal.{number_of};

// What a request is refused for: an address past the volume; no record row, no place, no branch row left; a moment below the floor that
// has no name, one above what the request can reach, the last one; a name that is given, no name row left, a name that is not given.
#[derive(Clone, Copy, PartialEq, Eq)]
pub enum Refusal {
    Address = 4,
    Records,
    Places,
    Branches,
    Below,
    Above,
    LastMoment,
    NameGiven = 15,
    Names,
    NotGiven,
}

// The number of a refusal in an answer; 0 where there is none.
pub fn number(refusal: Option<Refusal>) -> u32
    ensures same { MatchOption refusal (result ≡ 0) (λ refusal. result ≡ number_of refusal) }
    ensures most { result ≤ 17 }
{
    refusal.map_or(0, |refusal| refusal as u32)
}
