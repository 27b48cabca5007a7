// No code: this crate holds the basic codes as they are printed (specs/), and the one fact that is shown over each table (proofs/Proper.antt).
#![tactic(auto)]
