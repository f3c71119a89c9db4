// Which parts of which modules are drawn, as a list of rectangles.
ghost use Rattle.std.specs.Prelude.{◌≡◌, ◌++◌, OnOk, IfOk};
ghost use Rattle.words.specs.Words;
ghost use Rattle.diagram.specs.Drawn;

use crate::layout::{Layout, Part, Rect};
use std::alloc::{AllocError, Global};
use words::bits::{Set, has_bit};

const COLUMN_BITS: u8 = 32;

fn has(column: u32, bit: u8) -> bool
    ensures { result ≡ Words.bit bit column }
{
    if bit < COLUMN_BITS {
        has_bit(column, Set(bit))
    } else {
        false
    }
}

/// Whether a module shows a part: each has its frame, and the band of a bit that is set.
pub fn shows(part: Part, column: u32) -> bool
    ensures { result ≡ Drawn.shows part column }
{
    match part {
        Part::Frame => true,
        Part::Band(bit) => has(column, bit),
    }
}

// The rectangles of a row's modules, put behind those that are there.
fn push_row(
    out: &mut Vec<Rect>,
    layout: &Layout,
    part: Part,
    step: usize,
    row: &[u32],
) -> Result<(), AllocError>
    ensures { OnOk result (out.new.items ≡ out.old.items ++ Drawn.of_row layout.now part step 0 row.now) }
{
    for (place, column) in row.iter().enumerate() {
        if shows(part, *column) {
            out.push(layout.rect(part, step, place))?;
        }
    }
    Ok(())
}

/// The rectangles of a part, one for each module that shows it, row after row from step 0 on.
pub fn rects(
    alloc: Global,
    layout: &Layout,
    part: Part,
    rows: &[Vec<u32>],
) -> Result<Vec<Rect>, AllocError>
    ensures { IfOk result (λ rects. Drawn.IsDrawn layout.now part rows.now rects.items) }
{
    let mut out = Vec::new(alloc);
    for (step, row) in rows.iter().enumerate() {
        push_row(&mut out, layout, part, step, row)?;
    }
    Ok(out)
}
