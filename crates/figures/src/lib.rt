// No code: this crate holds the starred figures of document 01, "Figures to check", as one table (specs/Figures.antt) with one claim (proofs/Figures.antt).
#![tactic(auto)]
