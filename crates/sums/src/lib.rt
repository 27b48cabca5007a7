// No code: this crate holds the laws on sums of whole numbers. They stand in specs/ and proofs/.
#![tactic(auto)]
