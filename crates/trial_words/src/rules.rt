// Rules, each with what it refuses with where it does not hold.
ghost use Rattle.std.specs.Prelude.{◌≡◌, if◌then◌else◌};

// A rule that is to hold, else an error.
pub fn need<E: Drop>(holds: bool, otherwise: E) -> Result<(), E>
    ensures { result ≡ (if holds then Ok tt else Err otherwise) }
{
    if holds { Ok(()) } else { Err(otherwise) }
}
