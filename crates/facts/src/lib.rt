// No code: this crate holds sentences of documents 01 and 02 that no single promise says outright (proofs/).
#![tactic(auto)]
