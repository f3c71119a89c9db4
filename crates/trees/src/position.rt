// Where something stands in a text: a span of bytes, and the line and the column of a byte, both counted from 1.
ghost use Rattle.std.specs.Prelude.{◌≡◌, ◌+◌, ◌≤◌, ◌==◌, not, length, take, drop, reverse, position, count_by, slice_range};
ghost use Rattle.std.specs.List.{suffix_len, position_or_len};
ghost use Rattle.trees.specs.Position.{column_from, line_of, column_of, text_of_line};

// The bytes from `start` up to `end`.
#[derive(Clone, Copy, Debug, PartialEq, Eq)]
pub struct Span {
    pub start: usize,
    pub end: usize,
}

#[derive(Clone, Copy, Debug, PartialEq, Eq)]
pub struct Position {
    pub line: usize,
    pub column: usize,
}

impl Span {
    // From where one span begins to where another ends.
    pub fn to(self, last: Span) -> Span
        ensures start { result.start ≡ self.start }
        ensures end { result.end ≡ last.end }
    {
        Span {
            start: self.start,
            end: last.end,
        }
    }

    // The bytes of a span, as far as they are in the text.
    pub fn of<'a>(&self, text: &'a [u8]) -> &'a [u8]
        ensures { self.now.start ≤ self.now.end → self.now.end ≤ length text.now → result.now ≡ slice_range text.now self.now.start self.now.end }
    {
        if self.start <= self.end && self.end <= text.len() {
            &text[self.start..self.end]
        } else {
            &text[0..0]
        }
    }
}

fn line_behind(front: &[u8]) -> usize
    ensures { result ≡ count_by (λ b. b == 10) front.now + 1 }
{
    front.iter().filter(|b| **b == b'\n').count() + 1
}

fn column_behind(front: &[u8]) -> usize
    ensures { result ≡ column_from 1 front.now }
{
    let mut column = 1;
    let mut rest = front;
    while let [b, more @ ..] = rest {
        column = if *b == b'\n' { 1 } else { column + 1 };
        rest = more;
    }
    column
}

// What stands before an index, or all where the text ends before it.
fn front(text: &[u8], index: usize) -> &[u8]
    ensures { result.now ≡ take index text.now }
{
    if index <= text.len() {
        &text[..index]
    } else {
        text
    }
}

/// The line and the column of the byte at an index. Behind the end stands what would follow the text.
pub fn position_of(text: &[u8], index: usize) -> Position
    ensures line { result.line ≡ line_of text.now index }
    ensures column { result.column ≡ column_of text.now index }
{
    let front = front(text, index);
    Position {
        line: line_behind(front),
        column: column_behind(front),
    }
}

// What stands from an index on; nothing where the text ends before it.
fn behind(text: &[u8], index: usize) -> &[u8]
    ensures { result.now ≡ drop index text.now }
{
    if index <= text.len() {
        &text[index..]
    } else {
        &text[text.len()..]
    }
}

// Where a text has its first end of a line.
fn first_end(rest: &[u8]) -> Option<usize>
    ensures { result ≡ position (λ b. b == 10) rest.now }
{
    rest.iter().position(|b| *b == b'\n')
}

// How many bytes stand behind its last.
fn last_end(front: &[u8]) -> Option<usize>
    ensures { result ≡ position (λ b. b == 10) (reverse front.now) }
{
    front.iter().rev().position(|b| *b == b'\n')
}

// How many bytes the first line of a text has.
#[tactic(auto, using(crate::proofs::LineLaws::first_else, crate::proofs::LineLaws::first_within))]
fn first_line(rest: &[u8]) -> usize
    ensures long { result ≡ position_or_len (λ b. b == 10) rest.now }
    ensures within { result ≤ length rest.now }
{
    match first_end(rest) {
        Some(n) => n,
        None => rest.len(),
    }
}

// How many bytes the last line of a text has.
#[tactic(auto, using(crate::proofs::LineLaws::last_else, crate::proofs::LineLaws::last_within))]
fn last_line(front: &[u8]) -> usize
    ensures long { result ≡ suffix_len (λ b. not (b == 10)) front.now }
    ensures within { result ≤ length front.now }
{
    match last_end(front) {
        Some(n) => n,
        None => front.len(),
    }
}

/// The line on which the byte at an index stands, without its end.
pub fn line_at(text: &[u8], index: usize) -> &[u8]
    ensures { result.now ≡ text_of_line text.now index }
{
    let front = front(text, index);
    let rest = behind(text, index);
    let start = front.len() - last_line(front);
    let end = text.len() - (rest.len() - first_line(rest));
    &text[start..end]
}
