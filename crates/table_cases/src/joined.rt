// Classes that are alike joined.
ghost use Rattle.std.specs.Prelude.{◌≡◌};

use crate::checked::{is_table, table};
use crate::listing::{Listed, Listing, first_of};
use minimize::join::join;
use minimize::memory::Parts;
use minimize::minimize::minimize;
use std::io;
use tables::cells::WordTable;
use tables::sheet::{Shape, Sheet};

// Of a table of three classes those that are alike.
fn parts_case(rt: &HostRuntime, t: WordTable) -> io::Result<()>
    requires sets { t.sets ≡ 1 }
    requires classes { t.table.classes ≡ 3 }
{
    let (mut scratch, mut index) = ([7u32; 64], [7u32; 64]);
    let mut parts = Parts::cut(3, &mut scratch, &mut index);
    let n = join(t, &mut parts);
    let (cls, firsts) = (parts.cls, parts.firsts);
    let classes = Listed(first_of(cls, 3));
    let part_firsts = Listed(first_of(firsts, n));
    println!(rt; "join: parts{classes}, firsts{part_firsts}")
}

// The table in which they are joined.
fn minimize_case(rt: &HostRuntime, t: WordTable) -> io::Result<()>
    requires sets { t.sets ≡ 1 }
    requires classes { t.table.classes ≡ 3 }
{
    let (mut scratch, mut index) = ([7u32; 64], [7u32; 64]);
    let mut parts = Parts::cut(3, &mut scratch, &mut index);
    let (mut rows, mut accept) = ([7u32; 64], [7u32; 64]);
    let mut sheet = Sheet {
        rows: &mut rows,
        accept: &mut accept,
        shape: Shape::new(3, 1),
    };
    match minimize(t, &mut parts, &mut sheet) {
        Some(classes) => {
            let (rows, accept) = (sheet.rows, sheet.accept);
            let listing = Listing {
                rows,
                accept,
                classes,
            };
            println!(rt; "quotient: {listing}")
        }
        None => println!(rt; "quotient: more"),
    }
}

// Classes 1 and 2 accept and lead to the same classes: the parts are 0, 1 and 1.
pub fn join_case(rt: &HostRuntime) -> io::Result<()> {
    let (rows, accept) = ([1u32, 2, 1, 2, 1, 2], [0u32, 1, 1]);
    if !is_table(&rows, &accept, 3, 1) {
        return println!(rt; "join: no table");
    }
    let t = table(&rows, &accept, 3, 1);
    parts_case(rt, t)?;
    minimize_case(rt, t)
}
