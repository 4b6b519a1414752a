#![tactic(auto)]

// The twelve settled examples of 01, proved of the definitions. They stand in specs/; this crate has no code.
