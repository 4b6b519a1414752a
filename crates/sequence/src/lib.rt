#![tactic(auto)]

// The theorems about sequences of calls of a chain (demand 2), cut in two and undone too (N6), over the promises of the calls. They stand in
// specs/ and proofs/; this crate has no code.
