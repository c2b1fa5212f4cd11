// The records of region maps and flat views, and the words in which they lie with whoever keeps them. The
// accessors rely on the facts that they require, which every caller proves: no entry point stands here.
#![tactic(auto)]

pub mod kind;
pub mod map;
pub mod numbers;
pub mod refusal;
pub mod view;
pub mod words;
