// Blanks and comments, which stand between tokens.
ghost use Rattle.std.specs.Prelude.{◌≡◌, ℕ, ◌≤◌, length, take, false, IsTrue};
ghost use Rattle.tokens.specs.Gaps.{is_blank, goes_on, in_comment, is_gap, gap_len};

// Whether a byte goes on with what stands between tokens: within a comment any byte does, outside a blank and the sign of a comment.
fn goes_on(comment: bool, b: u8) -> bool
    ensures { result ≡ goes_on comment b }
{
    comment || is_blank(b) || b == b'#'
}

// Whether a comment goes on behind a byte: it begins with its sign and ends with its line.
fn in_comment(comment: bool, b: u8) -> bool
    ensures { result ≡ in_comment comment b }
{
    if b == b'\n' {
        false
    } else {
        comment || b == b'#'
    }
}

/// How many bytes at the front of a text are blanks and comments.
pub fn gap(bytes: &[u8]) -> usize
    ensures within { result ≤ length bytes.now }
    ensures gap { IsTrue (is_gap (take result bytes.now)) }
    ensures count { result ≡ gap_len false bytes.now }
{
    blanks(bytes)
}

// The same, counted.
fn blanks(bytes: &[u8]) -> usize
    ensures count { result ≡ gap_len false bytes.now }
    ensures within { result ≤ length bytes.now }
{
    let mut comment = false;
    let mut count = 0;
    let mut rest = bytes;
    while let [b, more @ ..] = rest {
        if !goes_on(comment, *b) {
            return count;
        }
        comment = in_comment(comment, *b);
        count += 1;
        rest = more;
    }
    count
}

fn is_blank(b: u8) -> bool
    ensures { result ≡ is_blank b }
{
    b == b' ' || b == b'\t' || b == b'\r' || b == b'\n'
}
