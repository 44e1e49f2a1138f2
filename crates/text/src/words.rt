ghost use Rattle.std.specs.Prelude.{◌≡◌, ◌==◌, ◌≤◌, length, position};
ghost use Rattle.std.specs.List.{between, position_or_len};
ghost use Rattle.text.specs.Readers.{bytes, Within};

use crate::reader::Span;

// The place of the first byte that is `end`.
fn first(bytes: &[u8], end: u8) -> Option<usize>
    ensures { result ≡ position (λ b. b == end) bytes.now }
{
    bytes.iter().position(|b| *b == end)
}

// How many bytes come before the first that is `end`.
pub fn run_len(bytes: &[u8], end: u8) -> usize
    ensures value { result ≡ position_or_len (λ b. b == end) bytes.now }
    ensures bound { result ≤ length bytes.now }
{
    first(bytes, end).unwrap_or(bytes.len())
}

// The part with what lies outside of the text cut off.
pub fn clamp(text: &[u8], part: Span) -> Span
    ensures within { Within text.now result }
    ensures bytes { bytes text.now result ≡ bytes text.now part }
{
    let end = part.end.min(text.len());
    let start = part.start.min(end);
    Span { start, end }
}

// The bytes of a part of the text; what lies outside of it isn't there.
pub fn slice<'t>(text: &'t [u8], part: Span) -> &'t [u8]
    ensures { result.now ≡ bytes text.now part }
{
    let Span { start, end } = clamp(text, part);
    &text[start..end]
}
