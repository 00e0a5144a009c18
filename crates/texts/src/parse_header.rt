// The header that is written.
ghost use Rattle.std.specs.Prelude.{◌≡◌};
ghost use Rattle.text.specs.Header.{header_of};

// A part of the text or the whole fallback, so that headers pass through as bytes.
pub fn parse_header<'a>(text: &'a [u8], fallback: &'a [u8]) -> &'a [u8]
    ensures { result.now ≡ header_of text.now fallback.now }
{
    text::header::header(text, fallback)
}
