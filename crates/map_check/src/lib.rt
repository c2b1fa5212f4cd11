// The check of a given region map: accepted, or refused with a number of document 01, 3, 4 and 6 to 11.
#![tactic(auto)]

pub mod answer;
pub mod check;
pub mod checked;
mod clash;
mod counted;
mod fault;
pub mod priority;
mod search;
