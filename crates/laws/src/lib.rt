// No code: this crate holds the plain laws that the other crates' proofs share. They stand in specs/ and proofs/.
#![tactic(auto)]
