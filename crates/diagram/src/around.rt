// What stands around the rows of a picture: its head, the legend of its colours, the ruler of places and the numbers of steps.
ghost use Rattle.std.specs.Prelude.{◌≤◌, length};

use crate::colours::colour_of;
use crate::elements::{Anchor, Group, Style, Text};
use crate::layout::{GRID_LEFT, LEGEND_LINE, LEGEND_TOP, Layout, MARGIN, Rect};
use crate::text::Escaped;
use std::fmt;

/// The title, the subject, and what the squares are.
#[derive(Clone, Copy)]
pub struct Head<'a> {
    pub title: &'a str,
    pub subject: &'a str,
}

// A text that begins at the left margin.
fn line(y: u128, style: Style, text: &str) -> Text<Escaped<'_>> {
    Text {
        x: MARGIN,
        y,
        style,
        anchor: Anchor::Start,
        text: Escaped(text),
    }
}

impl fmt::Display for Head<'_> {
    fn fmt<W: fmt::Write>(&self, f: &mut fmt::Formatter<W>) -> fmt::Result {
        let title = line(30, Style::Title, self.title);
        let subject = line(50, Style::Body, self.subject);
        let squares = line(
            72,
            Style::Small,
            "a square is a module, its bands are bits:",
        );
        write!(f, "{title}{subject}{squares}")
    }
}

/// The legend: for each bit a band in its colour, and its name.
#[derive(Clone, Copy)]
pub struct Legend<'a> {
    pub bits: &'a [&'a str],
    ghost few: { length bits.now ≤ 11 },
}

impl fmt::Display for Legend<'_> {
    fn fmt<W: fmt::Write>(&self, f: &mut fmt::Formatter<W>) -> fmt::Result {
        for (bit, name) in self.bits.iter().enumerate() {
            let y = LEGEND_TOP + bit as u128 * LEGEND_LINE;
            let band = [Rect {
                x: MARGIN,
                y,
                width: 30,
                height: LEGEND_LINE,
            }];
            let group = Group {
                fill: colour_of(bit as u8),
                outline: " stroke=\"#444444\"",
                rects: &band,
            };
            let name = Text {
                x: MARGIN + 40,
                y: y + 13,
                style: Style::Body,
                anchor: Anchor::Start,
                text: Escaped(*name),
            };
            write!(f, "{group}{name}")?;
        }
        Ok(())
    }
}

// How many places the ruler goes on from one number to the next.
fn ruler_step(modules: usize) -> usize
    ensures { 1 ≤ result }
{
    match modules {
        0..=10 => 1,
        11..=80 => 5,
        _ => 10,
    }
}

/// The ruler above the first row: a tick above each place, a longer one with its number above some, from place 0 on.
#[derive(Clone, Copy)]
pub struct Ruler {
    pub layout: Layout,
    pub modules: usize,
}

impl fmt::Display for Ruler {
    fn fmt<W: fmt::Write>(&self, f: &mut fmt::Formatter<W>) -> fmt::Result {
        let layout = self.layout;
        let bottom = layout.first_top() - 3;
        let every = ruler_step(self.modules);
        for place in 0..self.modules {
            let x = layout.middle(place);
            let numbered = place % every == 0;
            let height: u128 = if numbered { 8 } else { 4 };
            let tick = Rect {
                x,
                y: bottom - height,
                width: 1,
                height,
            };
            write!(f, "{tick}")?;
            if numbered {
                let number = Text {
                    x,
                    y: bottom - 12,
                    style: Style::Small,
                    anchor: Anchor::Middle,
                    text: place,
                };
                write!(f, "{number}")?;
            }
        }
        Ok(())
    }
}

/// What stands above the ruler and above the numbers of the steps.
#[derive(Clone, Copy)]
pub struct Axes(pub Layout);

impl fmt::Display for Axes {
    fn fmt<W: fmt::Write>(&self, f: &mut fmt::Formatter<W>) -> fmt::Result {
        let layout = self.0;
        let place = Text {
            x: GRID_LEFT,
            y: layout.first_top() - 30,
            style: Style::Small,
            anchor: Anchor::Start,
            text: "place",
        };
        let step = Text {
            x: GRID_LEFT - 10,
            y: layout.first_top() - 15,
            style: Style::Small,
            anchor: Anchor::End,
            text: "step",
        };
        write!(f, "{place}{step}")
    }
}

/// The numbers of so many steps, at the left of their rows.
#[derive(Clone, Copy)]
pub struct Steps {
    pub layout: Layout,
    pub steps: usize,
}

impl fmt::Display for Steps {
    fn fmt<W: fmt::Write>(&self, f: &mut fmt::Formatter<W>) -> fmt::Result {
        let layout = self.layout;
        for step in 0..self.steps {
            let number = Text {
                x: GRID_LEFT - 10,
                y: layout.text_foot(step),
                style: Style::Small,
                anchor: Anchor::End,
                text: step,
            };
            write!(f, "{number}")?;
        }
        Ok(())
    }
}
