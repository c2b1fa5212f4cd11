// What a host program in C or Rust calls: include/wicktumble.h. Records are words in the host's storage. The header fixes the
// parameters of each call, also of those with six or more.
#![tactic(auto)]

pub mod devices;
pub mod maps;
mod queue_words;
pub mod queues;
mod result;
pub mod routes;
