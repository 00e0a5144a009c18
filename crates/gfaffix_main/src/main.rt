// The program: its words to a run, whose status it ends with.
#![tactic(auto)]

ghost use Rattle.std.specs.Prelude.{◌≤◌, IfSome};
ghost use Rattle.std.specs.Counts.{IsPrefixLen};

use std::env::{Env, FillError};
use std::process::ExitCode;

// The words, each ended by a 0, at the front of the room, and how many bytes they are; nothing where they do not fit.
fn collect(rt: &impl Env, words: &mut [u8]) -> Option<usize>
    ensures { IfSome result (λ n. IsPrefixLen n words.new) }
{
    let mut at: usize = 0;
    for i in 1..usize::MAX {
        let n = match rt.arg(i, &mut words[at..]) {
            Ok(n) => n,
            Err(FillError::NotPresent) => return Some(at),
            Err(FillError::TooLong) => return None,
        };
        if words.len() - at <= n {
            return None;
        }
        words[at + n] = 0;
        at += n + 1;
    }
    None
}

fn run(rt: &HostRuntime) -> u64
    ensures { result ≤ 3 }
{
    // No heap: the room is of fixed size.
    let mut words = [0u8; 32768];
    let Some(n) = collect(rt, &mut words) else {
        return front::run::too_long(&rt.stderr());
    };
    front::run::run(rt, &words[..n], &rt.stdout(), &rt.stderr(), 8192)
}

fn main(rt: HostRuntime) -> ExitCode {
    let status = run(&rt);
    ExitCode::from(status as u8)
}
