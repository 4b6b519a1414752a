// Why a call is refused: the numbers of document 01's table, and 15 of request N1, as an enum.
#![tactic(auto)]

ghost use Rattle.std.specs.Prelude.{◌≡◌, [], ◌∷◌};
ghost use Rattle.definition.specs.Refusal.{first, test};
ghost use Rattle.reason.specs.Numbers.{number, number_of};

// With their numbers.
#[derive(Clone, Copy, Debug, PartialEq, Eq)]
pub enum Refusal {
    // the route is not 1, 2, 3 or 4
    Route = 1,
    // the modulus is not prime, or above the largest
    Modulus = 2,
    // the order is 0 or above the limit
    Order = 3,
    // the outer list is longer than the limit
    OuterLength = 4,
    // the inner list, series or cycle list is longer than the limit
    InnerLength = 5,
    // the output, running buffer or rendered list has not as many places as the order
    Places = 6,
    // the work buffer or the text buffer is too short
    Work = 7,
    // a coefficient is the modulus or more
    Coefficient = 8,
    // no reverse series exists
    Irreversible = 9,
    // the cycle or the running series has a constant term
    Constant = 10,
    // the chain is full
    Cycles = 11,
    // the job file, or an order or count in its header, is too large
    FileSize = 12,
    // the job file lacks its header or a list
    FileShort = 13,
    // the index is past the end of the table
    Index = 14,
    // the route is 2, and its block length is 0 or above the longest
    Block = 15,
}

impl From<Refusal> for u32 {
    ghost from_gives = { λ refusal n. n ≡ number_of refusal };

    fn from(refusal: Refusal) -> u32 {
        refusal as u32
    }
}

// Refuses where a test fires.
#[tactic(auto, unfolding(definition::specs::Refusal::first, crate::specs::Numbers::numbered))]
pub fn refuse_if(fires: bool, refusal: Refusal) -> Result<(), Refusal>
    ensures { number result ≡ first (test (number_of refusal) fires ∷ []) }
{
    if fires { Err(refusal) } else { Ok(()) }
}
