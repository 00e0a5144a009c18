// What replaying needs: the cases read, their arrays found, the answers written (docs/REPLAY.md).
#![tactic(auto)]

pub mod faults;
pub mod input;
pub mod lend;
pub mod output;
pub mod parts;
pub mod stream;
