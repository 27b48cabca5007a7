// The words of a lesson (docs/LESSONS.md, "Lines"): where a line ends, its words, and what they mean. Text is only read here; the program `bench` answers.
#![tactic(auto)]

pub mod numbers;
pub mod samples;
pub mod words;
