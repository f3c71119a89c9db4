// The complement of a table, and the product of two.
ghost use Rattle.std.specs.Prelude.{◌≡◌, ◌<◌, ◌≤◌};

use crate::checked::{is_table, table};
use crate::listing::Listing;
use product::memory::Pairs;
use product::pairs::product;
use std::io;
use tables::cells::WordTable;
use tables::complement::complement;
use tables::sheet::{Shape, Sheet};

// The complement of A.
pub fn complement_case(rt: &HostRuntime) -> io::Result<()> {
    let rows = [0u32, 1, 1, 0];
    let mut accept = [1u32, 0];
    complement(&mut accept, 2);
    let listing = Listing {
        rows: &rows,
        accept: &accept,
        classes: 2,
    };
    println!(rt; "complement: {listing}")
}

// The product of two tables, with at most `most` pairs.
fn pairs_case(rt: &HostRuntime, a: WordTable, b: WordTable, most: usize) -> io::Result<()>
    requires same_sets { (a.sets ≡ 1) × (b.sets ≡ 1) }
    requires starts { (0 < a.table.classes) × (0 < b.table.classes) }
    requires few { (a.table.classes ≤ 8) × (b.table.classes ≤ 8) }
    requires most { (0 < most) × (most ≤ 8) }
{
    let (mut rows, mut accept) = ([7u32; 64], [7u32; 64]);
    let (mut lefts, mut rights, mut index) = ([7u32; 64], [7u32; 64], [7u32; 64]);
    let mut sheet = Sheet {
        rows: &mut rows,
        accept: &mut accept,
        shape: Shape::new(most, 1),
    };
    let mut pairs = Pairs {
        left: a,
        right: b,
        most,
        lefts: &mut lefts,
        rights: &mut rights,
        index: &mut index,
    };
    match product(&mut pairs, &mut sheet) {
        Some(classes) => {
            let (rows, accept) = (sheet.rows, sheet.accept);
            let listing = Listing {
                rows,
                accept,
                classes,
            };
            println!(rt; "product, at most {most}: {listing}")
        }
        None => println!(rt; "product, at most {most}: more"),
    }
}

// The product of A and B, with at most `most` pairs.
pub fn product_case(rt: &HostRuntime, most: usize) -> io::Result<()>
    requires { (0 < most) × (most ≤ 8) }
{
    let (a_rows, a_accept) = ([0u32, 1, 1, 0], [1u32, 0]);
    let (b_rows, b_accept) = ([0u32, 1, 1, 1], [0u32, 1]);
    if !is_table(&a_rows, &a_accept, 2, 1) || !is_table(&b_rows, &b_accept, 2, 1) {
        return println!(rt; "product: no tables");
    }
    let a = table(&a_rows, &a_accept, 2, 1);
    let b = table(&b_rows, &b_accept, 2, 1);
    pairs_case(rt, a, b, most)
}
