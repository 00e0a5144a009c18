// What the P and W lines of a text are refused for. Other lines are not looked at.
ghost use Rattle.std.specs.Prelude.{◌*◌, ◌≤◌, ◌≡◌, true, cond, length};
ghost use Rattle.kit.specs.Loops.{all, keep};
ghost use Rattle.kit.specs.Refusal.{number_of};
ghost use Rattle.store.specs.Graph.{nodes_of};
ghost use Rattle.spelling.specs.Spelling.{all_stored};
ghost use Rattle.text.specs.Pieces.{lines_of};
ghost use Rattle.text.specs.Refusal.{first_number};
ghost use Rattle.text.specs.Fields.{line_number, handles_said};
ghost use Rattle.paths.specs.PathText.{is_path_line, paths_number};

use fields::check_line;
use kit::Refusal;
use lines::next_line;
use reading::steps::said_stored;
use text::pieces::is_line;

fn is_path_line(line: &[u8]) -> bool
    ensures { result ≡ is_path_line line.now }
{
    is_line(line, b'P') || is_line(line, b'W')
}

fn check_own(line: &[u8]) -> Result<(), Refusal>
    ensures { number_of result ≡ cond (is_path_line line.now) (line_number line.now) 0 }
{
    if is_path_line(line) {
        return check_line(line);
    }
    Ok(())
}

// Pass one.
fn check_lines(text: &[u8]) -> Result<(), Refusal>
    ensures { number_of result ≡ first_number line_number (keep is_path_line (lines_of text.now)) }
{
    let mut from: usize = 0;
    loop {
        let end = next_line(text, from);
        check_own(&text[from..end])?;
        if end == text.len() {
            return Ok(());
        }
        from = end + 1;
    }
}

fn own_stored(nodes: &[u64], count: usize, line: &[u8]) -> bool
    requires { 4 * count ≤ length nodes.now }
    ensures { result ≡ cond (is_path_line line.now) (all_stored (nodes_of count nodes.now) (handles_said line.now)) true }
{
    !is_path_line(line) || said_stored(nodes, count, line)
}

// Pass two.
fn lines_stored(nodes: &[u64], count: usize, text: &[u8]) -> bool
    requires { 4 * count ≤ length nodes.now }
    ensures { result ≡ all (λ line. all_stored (nodes_of count nodes.now) (handles_said line)) (keep is_path_line (lines_of text.now)) }
{
    let mut from: usize = 0;
    loop {
        let end = next_line(text, from);
        if !own_stored(nodes, count, &text[from..end]) {
            return false;
        }
        if end == text.len() {
            return true;
        }
        from = end + 1;
    }
}

pub fn check_paths(nodes: &[u64], count: usize, text: &[u8]) -> Result<(), Refusal>
    requires { 4 * count ≤ length nodes.now }
    ensures { number_of result ≡ paths_number (nodes_of count nodes.now) text.now }
{
    check_lines(text)?;
    if !lines_stored(nodes, count, text) {
        return Err(Refusal::Absent);
    }
    Ok(())
}
