// The virtio memory device of source 000: its record, its set-up, the host's calls and the guest's
// requests, with the refusal numbers 13, 14, 15 and 27.
#![tactic(auto)]

pub mod calls;
pub mod device;
pub mod host;
pub mod refused;
pub mod request;
pub mod setup;
mod state;
