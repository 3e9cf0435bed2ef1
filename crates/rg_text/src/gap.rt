//! White space, comments and lines.

ghost use Rattle.std.specs.Prelude.{◌≡◌, ◌==◌, ◌≤◌, count_by, length};
ghost use Rattle.rg_text.specs.Tokenization.{is_white_space, gap_len};

/// How many bytes at the front are white space and comments.
pub(crate) fn gap_len(bytes: &[u8]) -> usize
    ensures is { result ≡ gap_len bytes.now }
    ensures within { result ≤ length bytes.now }
{
    let mut in_comment = false;
    for (place, byte) in bytes.iter().enumerate() {
        if in_comment {
            in_comment = *byte != b'\n';
        } else if *byte == b'#' {
            in_comment = true;
        } else if !is_white_space(*byte) {
            return place;
        }
    }
    bytes.len()
}

fn is_white_space(byte: u8) -> bool
    ensures { result ≡ is_white_space byte }
{
    matches!(byte, b' ' | b'\t' | b'\r' | b'\n')
}

/// How many lines end in these bytes.
pub(crate) fn line_feeds(bytes: &[u8]) -> usize
    ensures { result ≡ count_by (λ b. b == 10) bytes.now }
{
    bytes.iter().filter(|b| **b == b'\n').count()
}
