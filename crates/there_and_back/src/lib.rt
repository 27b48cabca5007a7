// No code: this crate holds what two calls say of each other. Where the parts of a timeslot lie and what lies at a chip: proofs/Cover.antt, proofs/Agree.antt.
#![tactic(auto)]
