// Steps, walks and fields into a room with a stop, before it is known whether all of the text fits.
#![tactic(auto)]

pub mod cap;
pub mod image;
pub mod step;
pub mod walk;
