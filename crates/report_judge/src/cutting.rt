//! Cuts a text at its first line feed.
ghost use Rattle.std.specs.Prelude.{◌≡◌, position};
ghost use Rattle.report_judge.specs.Lines.{behind_line, first_line, is_feed};

/// Where the first line feed stands.
fn feed(text: &[u8]) -> Option<usize>
    ensures { result ≡ position is_feed text.now }
{
    text.iter().position(|byte| *byte == b'\n')
}

/// The first line of a text, without its line feed, and what stands behind that.
pub fn cut(text: &[u8]) -> (&[u8], &[u8])
    ensures line { result.0.now ≡ first_line text.now }
    ensures rest { result.1.now ≡ behind_line text.now }
{
    match feed(text) {
        Some(at) => (&text[..at], &text[at + 1..]),
        None => (text, &[]),
    }
}
