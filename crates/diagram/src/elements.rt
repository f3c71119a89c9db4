// The elements of a picture as SVG: texts, rectangles, and groups of these.
ghost use Rattle.std.specs.Prelude.{◌^◌, ◌<◌};

use crate::layout::Rect;
use std::fmt;

/// How a text is written.
#[derive(Clone, Copy)]
pub enum Style {
    Title,
    Body,
    Small,
}

impl Style {
    fn attributes(self) -> &'static str {
        match self {
            Style::Title => "font-size=\"16\" font-weight=\"bold\"",
            Style::Body => "font-size=\"13\"",
            Style::Small => "font-size=\"11\" fill=\"#444444\"",
        }
    }

    /// About how wide a text is, in pixels; rather more than less.
    pub fn width(self, text: &str) -> u128
        ensures { result < 2 ^ 72 }
    {
        let letter = match self {
            Style::Title => 11,
            Style::Body => 8,
            Style::Small => 7,
        };
        text.len() as u128 * letter
    }
}

/// Which point of a text stands at the place that is given.
#[derive(Clone, Copy)]
pub enum Anchor {
    Start,
    Middle,
    End,
}

impl Anchor {
    fn name(self) -> &'static str {
        match self {
            Anchor::Start => "start",
            Anchor::Middle => "middle",
            Anchor::End => "end",
        }
    }
}

/// A text: where it stands, and how.
#[derive(Clone, Copy)]
pub struct Text<D> {
    pub x: u128,
    pub y: u128,
    pub style: Style,
    pub anchor: Anchor,
    pub text: D,
}

impl<D: fmt::Display> fmt::Display for Text<D> {
    fn fmt<W: fmt::Write>(&self, f: &mut fmt::Formatter<W>) -> fmt::Result {
        let (x, y) = (self.x, self.y);
        let attributes = self.style.attributes();
        let anchor = self.anchor.name();
        let text = &self.text;
        writeln!(
            f,
            "<text x=\"{x}\" y=\"{y}\" text-anchor=\"{anchor}\" {attributes}>{text}</text>"
        )
    }
}

impl fmt::Display for Rect {
    fn fmt<W: fmt::Write>(&self, f: &mut fmt::Formatter<W>) -> fmt::Result {
        let (x, y, width, height) = (self.x, self.y, self.width, self.height);
        writeln!(
            f,
            "<rect x=\"{x}\" y=\"{y}\" width=\"{width}\" height=\"{height}\"/>"
        )
    }
}

/// Rectangles that are drawn alike: the colour that fills them, and the attributes of their outlines, if they have any.
#[derive(Clone, Copy)]
pub struct Group<'a> {
    pub fill: &'static str,
    pub outline: &'static str,
    pub rects: &'a [Rect],
}

impl fmt::Display for Group<'_> {
    fn fmt<W: fmt::Write>(&self, f: &mut fmt::Formatter<W>) -> fmt::Result {
        let (fill, outline) = (self.fill, self.outline);
        writeln!(f, "<g fill=\"{fill}\"{outline}>")?;
        for rect in self.rects {
            write!(f, "{rect}")?;
        }
        writeln!(f, "</g>")
    }
}
