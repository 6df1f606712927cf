// Why a call on lent slices is refused.

// A refusal's number is the paper's, and the one that a C host gets.
#[derive(Clone, Copy, PartialEq, Eq, Debug)]
pub enum Refusal {
    TooShort = 11,
    OutOfForm = 12,
    Unknown = 13,
    NoPassLeft = 14,
    Running = 15,
    Waiting = 16,
    NotRunning = 17,
    Incomplete = 18,
    NoRoom = 19,
    NoStep = 20,
    NotHeld = 21,
}

impl From<Refusal> for u64 {
    ghost use Rattle.std.specs.Prelude.{◌≡◌};
    ghost use Rattle.plan.specs.Refusals.{number_of};

    ghost from_gives = { λ refusal result. result ≡ number_of refusal };

    fn from(refusal: Refusal) -> u64
        ensures { result ≡ number_of refusal }
    {
        refusal as u64
    }
}
