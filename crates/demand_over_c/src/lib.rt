// No code: this crate holds demand 3 as a theorem over the calls of the C interface. The statement
// stands in specs/, the theorem in proofs/DemandOverC.antt.
#![tactic(auto)]
