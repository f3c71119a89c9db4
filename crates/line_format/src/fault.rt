// What is said of a line that is not of the form.
use std::fmt;
use std::str::from_utf8;

/// Why a line is not of the form: what was found.
#[derive(Clone, Copy, Debug)]
pub enum Fault<'a> {
    Empty,
    OneField(&'a [u8]),
    FourthField(&'a [u8]),
    Most(&'a [u8]),
    OutWords(&'a [u8]),
    OddDigits(usize),
    NoPair(u8, u8),
    Memory,
}

// The most bytes of a line that a message shows.
const MOST_SHOWN: usize = 40;

// Bytes as a message shows them, between quotes: the first forty, if they are text.
#[derive(Clone, Copy)]
struct Quoted<'a>(&'a [u8]);

impl fmt::Display for Quoted<'_> {
    fn fmt<W: fmt::Write>(&self, f: &mut fmt::Formatter<W>) -> fmt::Result {
        let bytes = self.0;
        let front = &bytes[..bytes.len().min(MOST_SHOWN)];
        let text = from_utf8(front).unwrap_or("(no text)");
        write!(f, "\"{text}\"")
    }
}

/// What was expected, and what stands there instead.
impl fmt::Display for Fault<'_> {
    fn fmt<W: fmt::Write>(&self, f: &mut fmt::Formatter<W>) -> fmt::Result {
        write!(f, "expected \"most hexbytes [outwords]\", found ")?;
        match *self {
            Fault::Empty => write!(f, "an empty line"),
            Fault::OneField(field) => write!(f, "one field, {}", Quoted(field)),
            Fault::FourthField(field) => write!(f, "a fourth field, {}", Quoted(field)),
            Fault::Most(field) => write!(
                f,
                "{} where most is a number from 0 to 4294967295",
                Quoted(field)
            ),
            Fault::OutWords(field) => write!(
                f,
                "{} where outwords is a number from 0 to 4294967295",
                Quoted(field)
            ),
            Fault::OddDigits(count) => write!(
                f,
                "an odd number of characters, {count}, where two hex digits make a byte"
            ),
            Fault::NoPair(a, b) => write!(
                f,
                "{} where two hex digits make a byte",
                Quoted(&[a, b])
            ),
            Fault::Memory => write!(f, "more bytes than there is memory for"),
        }
    }
}
