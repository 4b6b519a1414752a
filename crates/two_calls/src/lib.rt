#![tactic(auto)]

// The claim about two calls (demand 3) and its proof, over the promises of the calls. They stand in specs/ and
// proofs/; this crate has no code.
