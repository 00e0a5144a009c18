// A line reader that holds a reference to the text and its place. Its step takes it apart and calls a finder on a plain
// slice.
#![tactic(auto)]

ghost use Rattle.std.specs.Prelude.{◌≤◌, length};
ghost use Rattle.text.specs.Search.{Piece};

// A text and the place where its next line begins.
#[derive(Drop)]
pub struct LineReader<'a> {
    pub text: &'a [u8],
    pub at: usize,
}

// Where the line at the place ends: at its newline, or at the text's end.
fn line_end(text: &[u8], at: usize) -> usize
    requires { at ≤ length text.now }
    ensures { Piece 10 text.now at result }
{
    text::pieces::piece_end(text, at, b'\n')
}

impl<'a> LineReader<'a> {
    pub fn next(self) -> usize
        requires { self.at ≤ length self.text.now }
        ensures { Piece 10 self.entry.text.now self.entry.at result }
    {
        line_end(self.text, self.at)
    }
}

// The same for a caller that holds no reader.
pub fn next_line(text: &[u8], at: usize) -> usize
    requires { at ≤ length text.now }
    ensures { Piece 10 text.now at result }
{
    let reader = LineReader { text, at };
    reader.next()
}
