// The text that `flatten` prints for a sheet, texts in a lent buffer, and a whole input in one.
#![tactic(auto)]

pub mod input;
pub mod listing;
mod text;
