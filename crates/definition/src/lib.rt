#![tactic(auto)]

// The definitions that the contracts of this product cite. They stand in specs/; this crate has no code.
