// The memory device where it lies: words that a caller lends. Inner functions, which rely on what
// their callers show; no entry point is here, and nothing of it is exported to hosts.
#![tactic(auto)]

pub mod answer;
pub mod block;
pub mod bytes;
pub mod pins;
pub mod plugs;
pub mod request;
pub mod rules;
pub mod table;
pub mod words;
