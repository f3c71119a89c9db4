// A row and the rows after it: as rows of marks, and as a picture.
ghost use Rattle.std.specs.Prelude.{◌≡◌, ◌≤◌, Some, IfOk, map, string_bytes};
ghost use Rattle.rule_report.specs.ShownRows.{Follows, ends_of, picture_name, rows_of, rows_shown, step_line};

use diagram::history::History;
use diagram::svg::{Diagram, svg};
use display::ends::Ends;
use display::marks::Marks;
use rows::rule::Layout;
use rule_source::source::Source;
use simulate::row::step;
use std::alloc::{AllocError, Global};
use std::fmt;

/// A picture: its name, without a folder, and its SVG text.
#[derive(Debug, Drop)]
pub struct Picture {
    pub name: String,
    pub svg: String,
}

/// The row, and so many rows after it.
pub fn history(
    alloc: Global,
    source: &Source<'_>,
    row: &[u32],
    steps: u32,
) -> Result<History, AllocError>
    ensures { IfOk result (Follows source.now.rule row.now steps) }
{
    let mut history = History::new(alloc, Vec::from_slice(alloc, row)?)?;
    for _t in 0..steps {
        let rule = &source.rule;
        let next = step(alloc, rule.layout, rule.bits, &rule.table, history.last())?;
        history.push(next)?;
    }
    Ok(history)
}

// What stands before the row of a step: before each but the first its number.
#[derive(Clone, Copy)]
struct StepLine(usize);

impl fmt::Display for StepLine {
    ghost output = { λ line. Some (step_line line.0) };

    fn fmt<W: fmt::Write>(&self, f: &mut fmt::Formatter<W>) -> fmt::Result {
        let t = self.0;
        if t == 0 {
            write!(f, "")
        } else {
            write!(f, "    after step {t}\n")
        }
    }
}

// How the ends of a row are shown: a ring's with the seam where it is cut.
fn ends_of(layout: Layout) -> Ends
    ensures { result ≡ ends_of layout }
{
    match layout {
        Layout::Line => Ends::Hidden,
        Layout::Ring => Ends::Seam,
    }
}

/// Rows that print as rows of marks, a line for each bit; before each row but the first stands its step.
#[derive(Clone, Copy)]
pub struct Rows<'n, 't, 'h> {
    pub layout: Layout,
    pub names: &'n [&'t str],
    pub history: &'h History,
}

impl fmt::Display for Rows<'_, '_, '_> {
    ghost output = { λ rows. Some (rows_shown rows.layout (map (λ name. name.now) rows.names.now) 0 (rows_of rows.history.now)) };

    fn fmt<W: fmt::Write>(&self, f: &mut fmt::Formatter<W>) -> fmt::Result {
        for (t, row) in self.history.rows.iter().enumerate() {
            let step = StepLine(t);
            let marks = Marks {
                names: self.names,
                word: row.as_slice(),
                ends: ends_of(self.layout),
            };
            write!(f, "{step}{marks}")?;
        }
        Ok(())
    }
}

/// The title of a file's pictures: the last part of its path, without its ending.
pub fn title_of(file: &str) -> &str {
    let name = file.rsplit('/').next().unwrap_or(file);
    match name.rsplit_once('.') {
        Some((stem, _)) if !stem.is_empty() => stem,
        _ => name,
    }
}

/// The picture of the rows: its title, and what they show.
pub fn draw(
    alloc: Global,
    source: &Source<'_>,
    title: &str,
    subject: &str,
    short: &str,
    history: &History,
) -> Result<Picture, AllocError>
    ensures { IfOk result (λ picture. string_bytes picture.name ≡ picture_name title.now short.now) }
{
    let diagram = Diagram {
        title,
        subject,
        bits: &source.bits.names,
        history,
    };
    Ok(Picture {
        name: format!(in alloc; "{title}.{short}.svg")?,
        svg: svg(alloc, &diagram)?,
    })
}
