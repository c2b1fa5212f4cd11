// The reader of map sheets: bytes and a memory length in, an accepted region map or the exact refusal
// of document 01 with its place out.
#![tactic(auto)]

pub mod answer;
mod fields;
pub mod number;
pub mod reading;
mod regions;
