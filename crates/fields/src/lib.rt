// What a line alone is refused for, and the link that a line says.
#![tactic(auto)]

ghost use Rattle.std.specs.Prelude.{◌≡◌, ◌||◌, ◌+◌, ◌<◌, cond, eqb, ltb, length, get_or};
ghost use Rattle.kit.specs.Loops.{any};
ghost use Rattle.kit.specs.Refusal.{number_of};
ghost use Rattle.handle.specs.Handle.{pack};
ghost use Rattle.text.specs.Pieces.{fields_of, field};
ghost use Rattle.text.specs.Names.{name_id};
ghost use Rattle.text.specs.Steps.{sign_dir};
ghost use Rattle.text.specs.Refusal.{or_number};
ghost use Rattle.text.specs.Fields.{filled, name_number, sign_number, letters_number, is_overlap, overlap_number, path_number, walk_number};
ghost use Rattle.text.specs.Fields.{segment_fields, link_fields, path_fields, walk_fields, shape_number, line_number, edge_of};

use handle::{Edge, Handle};
use kit::Refusal;
use text::{names, pieces, steps};

fn check_filled(f: &[u8]) -> Result<(), Refusal>
    ensures { number_of result ≡ filled f.now }
{
    if f.is_empty() {
        return Err(Refusal::Shape);
    }
    Ok(())
}

fn check_name(f: &[u8]) -> Result<(), Refusal>
    ensures { number_of result ≡ name_number f.now }
{
    check_filled(f)?;
    if names::name_id(f) == 0 {
        return Err(Refusal::Name);
    }
    Ok(())
}

fn check_sign(f: &[u8]) -> Result<(), Refusal>
    ensures { number_of result ≡ sign_number f.now }
{
    if f.len() != 1 || !steps::is_sign(f[0]) {
        return Err(Refusal::Shape);
    }
    Ok(())
}

fn check_letters(f: &[u8]) -> Result<(), Refusal>
    ensures { number_of result ≡ letters_number f.now }
{
    check_filled(f)?;
    if !letters::all_letters(f) {
        return Err(Refusal::Letter);
    }
    Ok(())
}

fn is_overlap(f: &[u8]) -> bool
    ensures { result ≡ is_overlap f.now }
{
    matches!(f, b"0M" | b"*")
}

fn check_overlap(f: &[u8]) -> Result<(), Refusal>
    ensures { number_of result ≡ overlap_number f.now }
{
    check_filled(f)?;
    if !is_overlap(f) {
        return Err(Refusal::Overlap);
    }
    Ok(())
}

// Fewer than n fields, or a byte 13 anywhere in the line.
fn check_shape(line: &[u8], n: usize) -> Result<(), Refusal>
    ensures { number_of result ≡ cond (ltb (length (fields_of line.now)) n || any (eqb 13) line.now) 1 0 }
{
    if !pieces::has_fields(line, n) || pieces::has_return(line) {
        return Err(Refusal::Shape);
    }
    Ok(())
}

#[tactic(auto, using(crate::proofs::Shapes::segment_first))]
pub fn check_segment(line: &[u8]) -> Result<(), Refusal>
    ensures { number_of result ≡ shape_number segment_fields line.now }
{
    check_shape(line, 3)?;
    check_name(pieces::field(line, 1))?;
    check_letters(pieces::field(line, 2))
}

// An end of a link, its name at field k, its sign after it.
fn check_end(line: &[u8], k: usize) -> Result<(), Refusal>
    requires { k < 5 }
    ensures { number_of result ≡ or_number (name_number (field k line.now)) (sign_number (field (k + 1) line.now)) }
{
    check_name(pieces::field(line, k))?;
    check_sign(pieces::field(line, k + 1))
}

#[tactic(auto, using(crate::proofs::Shapes::link_first))]
pub fn check_link(line: &[u8]) -> Result<(), Refusal>
    ensures { number_of result ≡ shape_number link_fields line.now }
{
    check_shape(line, 6)?;
    check_end(line, 1)?;
    check_end(line, 3)?;
    check_overlap(pieces::field(line, 5))
}

fn check_path(f: &[u8]) -> Result<(), Refusal>
    ensures { number_of result ≡ path_number f.now }
{
    check_filled(f)?;
    steps::check_path(f)
}

#[tactic(auto, using(crate::proofs::Shapes::path_first))]
pub fn check_path_line(line: &[u8]) -> Result<(), Refusal>
    ensures { number_of result ≡ shape_number path_fields line.now }
{
    check_shape(line, 4)?;
    check_filled(pieces::field(line, 1))?;
    check_path(pieces::field(line, 2))?;
    check_filled(pieces::field(line, 3))
}

fn check_walk(f: &[u8]) -> Result<(), Refusal>
    ensures { number_of result ≡ walk_number f.now }
{
    check_filled(f)?;
    steps::check_walk(f)
}

// Five fields that need only be filled come before the walk.
#[tactic(auto, using(crate::proofs::Shapes::walk_first))]
pub fn check_walk_line(line: &[u8]) -> Result<(), Refusal>
    ensures { number_of result ≡ shape_number walk_fields line.now }
{
    check_shape(line, 7)?;
    for k in 1..6_usize {
        check_filled(pieces::field(line, k))?;
    }
    check_walk(pieces::field(line, 6))
}

// Lines of other kinds are passed over.
#[tactic(auto, unfolding(text::specs::Fields::line_number))]
pub fn check_line(line: &[u8]) -> Result<(), Refusal>
    ensures { number_of result ≡ line_number line.now }
{
    if pieces::is_line(line, b'S') {
        return check_segment(line);
    }
    if pieces::is_line(line, b'L') {
        return check_link(line);
    }
    if pieces::is_line(line, b'P') {
        return check_path_line(line);
    }
    if pieces::is_line(line, b'W') {
        return check_walk_line(line);
    }
    Ok(())
}

// What an end of a link says, its name at field k, its sign after it. An empty sign counts as forward: such a line is refused.
fn end_of(line: &[u8], k: usize) -> Handle
    requires { k < 5 }
    ensures { result ≡ pack (name_id (field k line.now)) (sign_dir (get_or (field (k + 1) line.now) 0 0)) }
{
    let id = names::name_id(pieces::field(line, k));
    let Some(&sign) = pieces::field(line, k + 1).first() else {
        return Handle::forward(id);
    };
    Handle::pack(id, steps::sign_dir(sign))
}

pub fn edge_of(line: &[u8]) -> Edge
    ensures { result ≡ edge_of line.now }
{
    let u = end_of(line, 1);
    let v = end_of(line, 3);
    Edge { from: u, to: v }
}
