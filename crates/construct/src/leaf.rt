// A claim without parts: its exact table, over the columns of its own sets.
ghost use Rattle.std.specs.Prelude.{◌≡◌, ◌≤◌, length};
ghost use Rattle.claims.specs.Claims.{atom as claim};
ghost use Rattle.kinds.specs.Atoms.{sets_of};
ghost use Rattle.narrowing.specs.Columns.{size};
ghost use Rattle.narrowing.specs.Mentioned.{named};
ghost use Rattle.construct.specs.Stands.{Result};
ghost use Rattle.construct.specs.declared.wanted.Wanted.TheVariants.{Exact};

use crate::part::Part;
use crate::work::Work;
use atoms::atom_table::atom_table;
use kinds::atom::Atom;
use selection::mentioned::mentioned;
use tables::sheet::Sheet;

/// The exact table of the claim, written on the sheet: the part that it is, or that it does not fit.
pub fn leaf(atom: Atom, sheet: &mut Sheet, work: &mut Work) -> Option<Part>
    requires shape { sheet.old.shape ≡ work.old.shape }
    requires about { sets_of atom ≤ work.old.sets }
    requires narrow { size work.old.sets (named atom) ≤ work.old.shape.sets }
    ensures table { Result Exact work.old.sets sheet.old sheet.new (claim atom) result }
    ensures sets { work.new.sets ≡ work.old.sets }
    ensures shape { work.new.shape ≡ work.old.shape }
    ensures free { length work.new.free.now ≡ length work.old.free.now }
{
    let sets = mentioned(atom, work.sets);
    let scratch = &mut *work.scratch;
    let classes = atom_table(atom, sets, scratch, sheet)?;
    Some(Part { sets, classes })
}
