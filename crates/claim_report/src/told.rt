// What an answer is, in words.
ghost use Rattle.std.specs.Prelude.{◌≡◌, Some, map, codes};
ghost use Rattle.claim_report.specs.Told.{ends_of, empty_word, subject_of, word_of, both_of, told_of, columns_told};

use display::columns::Columns;
use display::ends::Ends;
use display::marks::Marks;
use resolve::scope::Shape;
use solve::answer::Answer;
use std::fmt;

/// What a text's claim is about: whether places and whether sets are declared, whether they are those of a row or of a ring, and whether something is assumed of them.
#[derive(Clone, Copy, Debug, PartialEq, Eq)]
pub struct Subject {
    pub places: bool,
    pub sets: bool,
    pub shape: Option<Shape>,
    pub assumes: bool,
}

impl fmt::Display for Subject {
    ghost output = { λ subject. Some (subject_of subject) };

    fn fmt<W: fmt::Write>(&self, f: &mut fmt::Formatter<W>) -> fmt::Result {
        let kind = match (self.shape, self.places, self.sets) {
            (Some(Shape::Row), _, _) => "rows",
            (Some(Shape::Ring), _, _) => "rings",
            (None, true, true) => "places and sets",
            (None, true, false) => "places",
            (None, false, _) => "sets",
        };
        let condition = if self.assumes {
            " that meet the assumptions"
        } else {
            ""
        };
        write!(f, "{kind}{condition}")
    }
}

// The ends of a word of this shape as they are shown: a row stands between walls, and a ring is cut at a seam.
fn ends_of(shape: Option<Shape>) -> Ends
    ensures { result ≡ ends_of shape }
{
    match shape {
        None => Ends::Hidden,
        Some(Shape::Row) => Ends::Walls,
        Some(Shape::Ring) => Ends::Seam,
    }
}

// What a word without places is.
fn empty_word(shape: Option<Shape>) -> &'static str
    ensures { result.now ≡ empty_word shape }
{
    match shape {
        None => "nothing anywhere",
        Some(Shape::Row) => "the empty row",
        Some(Shape::Ring) => "the empty ring",
    }
}

/// A word as rows of marks, with both ends if it is a row, at a seam if it is a ring; or that it has no places.
#[derive(Clone, Copy, Debug)]
struct Word<'n, 't, 'w> {
    shape: Option<Shape>,
    names: &'n [&'t str],
    word: &'w [u32],
}

impl fmt::Display for Word<'_, '_, '_> {
    ghost output = { λ w. Some (word_of w.shape (map (λ name. name.now) w.names.now) w.word.now) };

    fn fmt<W: fmt::Write>(&self, f: &mut fmt::Formatter<W>) -> fmt::Result {
        let marks = Marks {
            names: self.names,
            word: self.word,
            ends: ends_of(self.shape),
        };
        let count = self.word.len();
        if count == 0 {
            let empty = empty_word(self.shape);
            write!(f, " of: {empty} (0 places).\n")
        } else if count == 1 {
            write!(f, ", of 1 place:\n{marks}")
        } else {
            write!(f, ", of {count} places:\n{marks}")
        }
    }
}

// The two first words of an answer: of which it holds, and of which it does not.
#[derive(Clone, Copy, Debug)]
struct Both<'n, 't, 'a> {
    subject: Subject,
    names: &'n [&'t str],
    first: &'a [u32],
    second: &'a [u32],
}

impl fmt::Display for Both<'_, '_, '_> {
    ghost output = { λ b. Some (both_of b.subject (map (λ name. name.now) b.names.now) b.first.now b.second.now) };

    fn fmt<W: fmt::Write>(&self, f: &mut fmt::Formatter<W>) -> fmt::Result {
        let subject = self.subject;
        let a = self.first.len();
        let b = self.second.len();
        let first = Word {
            shape: subject.shape,
            names: self.names,
            word: self.first,
        };
        let second = Word {
            shape: subject.shape,
            names: self.names,
            word: self.second,
        };
        writeln!(f, "both {a} {b}")?;
        write!(
            f,
            "It holds of some {subject} and not of others. First{first}"
        )?;
        write!(f, "It does not hold first{second}")
    }
}

/// An answer in words, with first words as rows of marks. Where it is too large that is all that is said.
#[derive(Clone, Copy, Debug)]
pub struct Told<'n, 't, 'a> {
    pub subject: Subject,
    pub names: &'n [&'t str],
    pub answer: &'a Answer,
}

impl fmt::Display for Told<'_, '_, '_> {
    ghost output = { λ t. Some (told_of t.subject (map (λ name. name.now) t.names.now) t.answer.now) };

    fn fmt<W: fmt::Write>(&self, f: &mut fmt::Formatter<W>) -> fmt::Result {
        let subject = self.subject;
        match self.answer {
            Answer::Always if self.names.is_empty() => write!(f, "always\nIt holds.\n"),
            Answer::Always => write!(f, "always\nIt holds of all {subject}.\n"),
            Answer::Unmet => write!(f, "always\nNothing meets the assumptions.\n"),
            Answer::Never if self.names.is_empty() => write!(f, "never\nIt does not hold.\n"),
            Answer::Never => write!(f, "never\nIt holds of no {subject}.\n"),
            Answer::Both(first, second) => {
                let both = Both {
                    subject,
                    names: self.names,
                    first,
                    second,
                };
                write!(f, "{both}")
            }
            Answer::TooLarge(n) => write!(f, "too large: more than {n} classes are told apart"),
        }
    }
}

/// An answer in one line, words as numbers.
#[derive(Clone, Copy, Debug)]
pub struct InColumns<'a>(pub &'a Answer);

impl fmt::Display for InColumns<'_> {
    ghost output = { λ t. Some (columns_told t.0.now) };

    fn fmt<W: fmt::Write>(&self, f: &mut fmt::Formatter<W>) -> fmt::Result {
        match self.0 {
            Answer::Always | Answer::Unmet => write!(f, "always\n"),
            Answer::Never => write!(f, "never\n"),
            Answer::Both(first, second) => {
                let a = first.len();
                let b = second.len();
                let first = Columns(first);
                let second = Columns(second);
                write!(f, "both {a} {b} | {first} | {second}\n")
            }
            Answer::TooLarge(n) => write!(f, "too large: more than {n} classes are told apart"),
        }
    }
}
