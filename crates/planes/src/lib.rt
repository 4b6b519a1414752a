#![tactic(auto)]
// Laws of products of polynomials in x and y. They stand in specs/; this crate has no code.
