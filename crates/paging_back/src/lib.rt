// No code: this crate holds theorems over the calls of paging. From place to owner and back, what is written and read back, what is not read, and one bit turned over: proofs/.
#![tactic(auto)]
