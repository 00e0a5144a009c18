// Steps of paths and walks: their ends, what they are refused for, and the oriented nodes that they say.
ghost use Rattle.std.specs.Prelude.{◌≡◌, ◌<◌, length};
ghost use Rattle.kit.specs.Refusal.{number_of};
ghost use Rattle.text.specs.Refusal.{first_number};
ghost use Rattle.text.specs.Steps.{is_sign, sign_dir, is_arrow, arrow_dir, path_step_number, path_steps, path_handle};
ghost use Rattle.text.specs.Steps.{walk_step_number, walk_steps, walk_handle};
ghost use Rattle.text.specs.StepEnd.{WalkStep};

use crate::names::name_id;
use crate::pieces::piece_end;
use handle::Handle;
use kit::Refusal;

pub fn is_sign(b: u8) -> bool
    ensures { result ≡ is_sign b }
{
    b == b'+' || b == b'-'
}

pub fn sign_dir(b: u8) -> u64
    ensures { result ≡ sign_dir b }
{
    if b == b'-' {
        return Handle::REVERSE;
    }
    Handle::FORWARD
}

fn is_arrow(b: u8) -> bool
    ensures { result ≡ is_arrow b }
{
    b == b'>' || b == b'<'
}

fn arrow_dir(b: u8) -> u64
    ensures { result ≡ arrow_dir b }
{
    if b == b'<' {
        return Handle::REVERSE;
    }
    Handle::FORWARD
}

// The sign is the last byte: an empty step has none, a lone sign has no name.
fn check_path_step(step: &[u8]) -> Result<(), Refusal>
    ensures { number_of result ≡ path_step_number step.now }
{
    let Some((&sign, name)) = step.split_last() else {
        return Err(Refusal::Shape);
    };
    if !is_sign(sign) {
        return Err(Refusal::Shape);
    }
    if name_id(name) == 0 {
        return Err(Refusal::Name);
    }
    Ok(())
}

// What the first refused step of a path is refused for.
pub fn check_path(field: &[u8]) -> Result<(), Refusal>
    ensures { number_of result ≡ first_number path_step_number (path_steps field.now) }
{
    let mut at: usize = 0;
    loop {
        let end = piece_end(field, at, b',');
        check_path_step(&field[at..end])?;
        if end == field.len() {
            return Ok(());
        }
        at = end + 1;
    }
}

// Bytes that are no step say an oriented node of id 0, which no graph has.
pub fn path_handle(step: &[u8]) -> Handle
    ensures { result ≡ path_handle step.now }
{
    let Some((&sign, name)) = step.split_last() else {
        return Handle::forward(0);
    };
    Handle::pack(name_id(name), sign_dir(sign))
}

// The place of the first arrow after `from`, or the length.
pub fn walk_step_end(bytes: &[u8], from: usize) -> usize
    requires { from < length bytes.now }
    ensures { WalkStep bytes.now from result }
{
    for i in from + 1..bytes.len() {
        if is_arrow(bytes[i]) {
            return i;
        }
    }
    bytes.len()
}

#[tactic(auto, using(crate::proofs::StepNumbers::no_name))]
fn check_walk_step(step: &[u8]) -> Result<(), Refusal>
    ensures { number_of result ≡ walk_step_number step.now }
{
    let Some((&arrow, name)) = step.split_first() else {
        return Err(Refusal::Shape);
    };
    if !is_arrow(arrow) || name.is_empty() {
        return Err(Refusal::Shape);
    }
    if name_id(name) == 0 {
        return Err(Refusal::Name);
    }
    Ok(())
}

// What the first refused step of a walk is refused for.
pub fn check_walk(field: &[u8]) -> Result<(), Refusal>
    ensures { number_of result ≡ first_number walk_step_number (walk_steps field.now) }
{
    let mut at: usize = 0;
    // The place moves by what a step takes, so it is no count.
    while at < field.len() {
        let end = walk_step_end(field, at);
        check_walk_step(&field[at..end])?;
        at = end;
    }
    Ok(())
}

// As path_handle.
pub fn walk_handle(step: &[u8]) -> Handle
    ensures { result ≡ walk_handle step.now }
{
    let Some((&arrow, name)) = step.split_first() else {
        return Handle::forward(0);
    };
    Handle::pack(name_id(name), arrow_dir(arrow))
}
