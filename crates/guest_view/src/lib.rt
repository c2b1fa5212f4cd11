// A given flat view, read where it lies as words: 27's test, the search for an address, reach, and the guest's memory.
// Inner functions: what they require is proved at each call. No entry point stands here, and no host calls it.
#![tactic(auto)]

pub mod find;
pub mod memory;
pub mod place;
pub mod reach;
pub mod rules;
pub mod view;
