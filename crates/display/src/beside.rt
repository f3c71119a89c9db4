// A message beside the line that it is about.
ghost use Rattle.std.specs.Prelude.{◌∷◌, ◌++◌, [], Some};
ghost use Rattle.std.specs.Option.{option_map_or};
ghost use Rattle.std.specs.Fmt.{◌++?◌};
ghost use Rattle.display.specs.Beside.{excerpt_of, place_of, under};

use std::fmt;

/// A message that prints with its place in a file, `FILE:LINE:COLUMN: message`, and below it the line, if it is text, with a caret under the column. Lines
/// and columns count from 1; a column is a byte.
#[derive(Clone, Copy, Debug)]
pub struct Beside<'f, 't, M> {
    pub file: &'f str,
    pub line: usize,
    pub column: usize,
    pub text: Option<&'t str>,
    pub message: M,
}

// A line, and a caret under one of its columns.
#[derive(Clone, Copy)]
struct Excerpt<'a> {
    text: &'a str,
    column: usize,
}

// Blanks as wide as a text: a tab under each tab.
#[derive(Clone, Copy)]
struct Under<'a>(&'a [u8]);

impl fmt::Display for Under<'_> {
    ghost output = { λ above. Some (under above.0.now) };

    fn fmt<W: fmt::Write>(&self, f: &mut fmt::Formatter<W>) -> fmt::Result {
        for byte in self.0 {
            let blank = if *byte == b'\t' { '\t' } else { ' ' };
            write!(f, "{blank}")?;
        }
        Ok(())
    }
}

impl fmt::Display for Excerpt<'_> {
    ghost output = { λ excerpt. Some (excerpt_of excerpt.text.now excerpt.column) };

    fn fmt<W: fmt::Write>(&self, f: &mut fmt::Formatter<W>) -> fmt::Result {
        let text = self.text;
        let before = self.column.saturating_sub(1).min(text.len());
        let under = Under(&text.as_bytes()[..before]);
        write!(f, "    {text}\n    {under}^\n")
    }
}

impl<M: fmt::Display> fmt::Display for Beside<'_, '_, M> {
    ghost output = { λ beside. Some (place_of beside.file.now beside.line beside.column) ++? M.output beside.message
        ++? Some (10 ∷ option_map_or (λ text. excerpt_of text.now beside.column) beside.text []) };

    fn fmt<W: fmt::Write>(&self, f: &mut fmt::Formatter<W>) -> fmt::Result {
        let (file, line, column) = (self.file, self.line, self.column);
        let message = &self.message;
        writeln!(f, "{file}:{line}:{column}: {message}")?;
        if let Some(text) = self.text {
            let excerpt = Excerpt { text, column };
            write!(f, "{excerpt}")?;
        }
        Ok(())
    }
}
