// No code: this crate holds the laws on whole numbers as floats, over any format of IEEE 754. They stand in specs/ and proofs/.
#![tactic(auto)]
