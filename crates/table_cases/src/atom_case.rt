// The table of a claim without parts, and its dead class.
ghost use Rattle.std.specs.Prelude.{◌≤◌};
ghost use Rattle.kinds.specs.Atoms.{sets_of};

use crate::listing::Listing;
use atoms::atom_table::atom_table;
use kinds::atom::Atom;
use live::dead::dead;
use selection::mentioned::mentioned;
use std::io;
use tables::sheet::{Shape, Sheet};

// A claim about one of three sets, over the columns of that set alone, with at most `most` classes.
pub fn atom_case(rt: &HostRuntime, atom: Atom, most: usize) -> io::Result<()>
    requires sets { sets_of atom ≤ 3 }
    requires few { most ≤ 8 }
{
    let sets = mentioned(atom, 3);
    if sets.count() != 1 {
        return println!(rt; "leaf: not one set");
    }
    let (mut rows, mut accept, mut scratch) = ([7u32; 64], [7u32; 64], [7u32; 384]);
    let mut sheet = Sheet {
        rows: &mut rows,
        accept: &mut accept,
        shape: Shape::new(most, 1),
    };
    let Some(classes) = atom_table(atom, sets, &mut scratch, &mut sheet) else {
        return println!(rt; "leaf, at most {most}: more");
    };
    let dead = dead(sheet.table(classes));
    let (rows, accept) = (sheet.rows, sheet.accept);
    let listing = Listing {
        rows,
        accept,
        classes,
    };
    println!(rt; "leaf, at most {most}: {listing}")?;
    match dead {
        Some(q) => println!(rt; "dead: {q}"),
        None => println!(rt; "dead: none"),
    }
}
