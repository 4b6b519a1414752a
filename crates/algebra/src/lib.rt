#![tactic(auto)]

// Laws of commutative semirings and of power series over them. They stand in specs/; this crate has no code.
