// What a report is made of, as bytes: numbers in digits, and lines.
#![tactic(auto)]

pub mod digits;
pub mod lines;
