// The program's outer part: its files and its lines on standard error. What it makes of a graph is desk's.
#![tactic(auto)]

mod files;
pub mod run;
mod say;
