// No code: this crate holds demand 3 as a theorem over the calls of classbook and listing. The statement stands in specs/, the theorem in proofs/Demand3.antt.
#![tactic(auto)]
