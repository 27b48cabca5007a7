// No code: this crate holds lessons in which the limits of demand 3 are reached. The lessons stand in specs/, the theorems in proofs/Reached.antt.
#![tactic(auto)]
