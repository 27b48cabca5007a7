// No code: this crate holds what is heard of a clean copy (document 02, C-18). It stands in specs/ and proofs/.
#![tactic(auto)]
