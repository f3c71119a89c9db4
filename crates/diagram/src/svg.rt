// A space-time diagram as an SVG text: the row of step 0, below it the row after step 1, and so on. A module is a square with a band
// for each bit, which has the bit's colour where the bit is set.
ghost use Rattle.std.specs.Prelude.{◌≤◌, length};

use crate::around::{Axes, Head, Legend, Ruler, Steps};
use crate::colours::colour_of;
use crate::drawn::rects;
use crate::elements::{Anchor, Group, Style, Text};
use crate::history::History;
use crate::layout::{GRID_LEFT, Layout, MARGIN, Part, Rect};
use std::alloc::{AllocError, Global};
use std::fmt;

/// What a diagram shows: the name of the rule's file, of which claim or row it speaks, the names of a module's bits, of which there
/// are 1 to 11, and the rows.
#[derive(Clone, Copy)]
pub struct Diagram<'a> {
    pub title: &'a str,
    pub subject: &'a str,
    pub bits: &'a [&'a str],
    pub history: &'a History,
    ghost some: { 1 ≤ length bits.now },
    ghost few: { length bits.now ≤ 11 },
}

// The bands of a bit, in its colour: one in each module that has the bit.
#[derive(Drop)]
struct Bands {
    colour: &'static str,
    rects: Vec<Rect>,
}

// The bands of each bit.
fn bands_of(alloc: Global, layout: &Layout, rows: &[Vec<u32>]) -> Result<Vec<Bands>, AllocError>
    requires { layout.now.bits ≤ 11 }
{
    let mut all = Vec::new(alloc);
    for bit in 0..layout.bits {
        all.push(Bands {
            colour: colour_of(bit),
            rects: rects(alloc, layout, Part::Band(bit), rows)?,
        })?;
    }
    Ok(all)
}

// The modules of all rows: light squares, on them the bands of the bits that are set, and then the squares' frames.
#[derive(Clone, Copy)]
struct Modules<'f, 'b> {
    frames: &'f [Rect],
    bands: &'b [Bands],
}

impl fmt::Display for Modules<'_, '_> {
    fn fmt<W: fmt::Write>(&self, f: &mut fmt::Formatter<W>) -> fmt::Result {
        let squares = Group {
            fill: "#f4f4f4",
            outline: "",
            rects: self.frames,
        };
        write!(f, "{squares}")?;
        for bands in self.bands {
            let group = Group {
                fill: bands.colour,
                outline: "",
                rects: bands.rects.as_slice(),
            };
            write!(f, "{group}")?;
        }
        let frames = Group {
            fill: "none",
            outline: " stroke=\"#777777\" stroke-width=\"0.8\"",
            rects: self.frames,
        };
        write!(f, "{frames}")
    }
}

// The row or rows with all that stands around them.
#[derive(Clone, Copy)]
struct Grid<'h, 'f, 'b> {
    layout: Layout,
    history: &'h History,
    modules: Modules<'f, 'b>,
}

impl fmt::Display for Grid<'_, '_, '_> {
    fn fmt<W: fmt::Write>(&self, f: &mut fmt::Formatter<W>) -> fmt::Result {
        let layout = self.layout;
        let history = self.history;
        let ruler = Ruler {
            layout,
            modules: history.modules,
        };
        let steps = Steps {
            layout,
            steps: history.rows.len(),
        };
        write!(f, "{}{ruler}{steps}", Axes(layout))?;
        if history.modules == 0 {
            let none = Text {
                x: GRID_LEFT,
                y: layout.text_foot(0),
                style: Style::Small,
                anchor: Anchor::Start,
                text: "no modules",
            };
            write!(f, "{none}")?;
        }
        let modules = self.modules;
        write!(f, "{modules}")
    }
}

impl Diagram<'_> {
    // The width of the picture: as wide as its longest row or text.
    fn width(&self, layout: &Layout) -> u128 {
        let mut wide = layout.left(self.history.modules).max(300);
        wide = wide.max(MARGIN + Style::Title.width(self.title));
        wide = wide.max(MARGIN + Style::Body.width(self.subject));
        for name in self.bits {
            wide = wide.max(MARGIN + 40 + Style::Body.width(name));
        }
        wide + MARGIN
    }
}

/// The picture of a diagram, as an SVG text. Nothing but memory can be wanting.
pub fn svg(alloc: Global, diagram: &Diagram<'_>) -> Result<String, AllocError> {
    let history = diagram.history;
    let layout = Layout::new(diagram.bits.len() as u8, history.modules);
    let width = diagram.width(&layout);
    let height = layout.top(history.rows.len()) + MARGIN;
    let frames = rects(alloc, &layout, Part::Frame, &history.rows)?;
    let bands = bands_of(alloc, &layout, &history.rows)?;
    let head = Head {
        title: diagram.title,
        subject: diagram.subject,
    };
    let legend = Legend { bits: diagram.bits };
    let modules = Modules {
        frames: &frames,
        bands: &bands,
    };
    let grid = Grid {
        layout,
        history,
        modules,
    };
    format!(in alloc;
        "<svg xmlns=\"http://www.w3.org/2000/svg\" width=\"{width}\" height=\"{height}\" viewBox=\"0 0 {width} {height}\" font-family=\"sans-serif\">\n<rect width=\"100%\" height=\"100%\" fill=\"#ffffff\"/>\n{head}{legend}{grid}</svg>\n"
    )
}
