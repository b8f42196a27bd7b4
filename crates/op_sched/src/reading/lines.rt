//! The lines of a text.
ghost use Rattle.std.specs.Prelude.{◌≡◌, ◌+◌, ◌≤◌, ◌<◌, ◌^◌, [], ◌∷◌, length, IfOk, IfErr, IfSome, IfNone};
ghost use Rattle.op_sched.specs.Grammar.{is_skipped, lines_of, numbered_lines};

use memchr::memchr;

/// The first line of a text, and the text after it.
fn next_line(text: &[u8]) -> Option<(&[u8], &[u8])>
    ensures found { IfSome result (λ x. lines_of text.now ≡ x.0.now ∷ lines_of x.1.now) }
    ensures shorter { IfSome result (λ x. length x.1.now < length text.now) }
    ensures none { IfNone result (lines_of text.now ≡ []) }
{
    if text.is_empty() {
        return None;
    }
    let Some(end) = memchr(b'\n', text) else {
        return Some((text, &[]));
    };
    Some((&text[..end], &text[end + 1..]))
}

/// Whether a line is empty or a comment.
fn is_skipped(line: &[u8]) -> bool
    ensures { result ≡ is_skipped line.now }
{
    match line {
        [] => true,
        [first, ..] => *first == b'#',
    }
}

/// A line that isn't skipped, and where it stands.
#[derive(Clone, Copy)]
pub struct NumberedLine<'a> {
    /// The line's number, from 1.
    pub number: u64,
    /// The line, without its end.
    pub line: &'a [u8],
    /// The text after the line.
    pub after: &'a [u8],
}

/// The next line that isn't skipped, of a text whose first line has this number; where there is none, the
/// number after the text's last line.
pub fn next_numbered(number: u64, text: &[u8]) -> Result<NumberedLine<'_>, u64>
    requires fits { number + length text.now < 2 ^ 64 }
    ensures found { IfOk result (λ x.
        numbered_lines number text.now ≡ (x.number, x.line.now) ∷ numbered_lines (x.number + 1) x.after.now) }
    ensures shorter { IfOk result (λ x. length x.after.now < length text.now) }
    ensures fits { IfOk result (λ x. x.number + 1 + length x.after.now ≤ number + length text.now) }
    ensures none { IfErr result (λ end. numbered_lines number text.now ≡ []) }
    ensures end { IfErr result (λ end. end ≡ number + length (lines_of text.now)) }
{
    let mut at = number;
    let mut rest = text;
    while let Some((line, after)) = next_line(rest) {
        if !is_skipped(line) {
            return Ok(NumberedLine {
                number: at,
                line,
                after,
            });
        }
        at += 1;
        rest = after;
    }
    Err(at)
}
