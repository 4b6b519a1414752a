// The sixteen largest primes below 2147483648.
#![tactic(auto)]

ghost use Rattle.std.specs.Prelude.{◌≡◌};
ghost use Rattle.definition.specs.Calls.{Table};
ghost use Rattle.definition.specs.PrimeTable.{prime_table};
ghost use Rattle.primes.specs.Member.{member};
ghost use Rattle.reason.specs.Numbers.{number, value};

use reason::Refusal;

// Largest first.
const TABLE: [u32; 16] = [
    2147483647, 2147483629, 2147483587, 2147483579, 2147483563, 2147483549, 2147483543, 2147483497,
    2147483489, 2147483477, 2147483423, 2147483399, 2147483353, 2147483323, 2147483269, 2147483249,
];

// Entry `index` of the table.
pub fn prime(index: u32) -> Result<u32, Refusal>
    ensures { Table index (number result) (value result) }
{
    TABLE.get(index as usize).copied().ok_or(Refusal::Index)
}

// Whether `p` is an entry of the table.
#[tactic(auto, using(crate::proofs::Table::member_written), unfolding(crate::specs::Table::table))]
pub fn in_table(p: u32) -> bool
    ensures { result ≡ member p prime_table }
{
    TABLE.contains(&p)
}
