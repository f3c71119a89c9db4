// What a table becomes under some: which classes are completed, and the sets of classes.
ghost use Rattle.std.specs.Prelude.{◌<◌, ◌≤◌, length};

use crate::checked::{is_table, table};
use crate::listing::{Listed, Listing, first_of};
use live::beyond::{Backward, beyond};
use project::memory::Sets;
use project::projection::Projection;
use project::subsets::subsets;
use std::io;
use tables::sheet::{Shape, Sheet};
use words::bits::Set;

// The classes that are completed: 1 for each.
pub fn beyond_case<'a>(
    rt: &HostRuntime,
    rows: &'a [u32],
    accept: &'a [u32],
    classes: usize,
) -> io::Result<()>
    requires { classes ≤ 8 }
{
    if !is_table(rows, accept, classes, 1) {
        return println!(rt; "beyond: no table");
    }
    let t = table(rows, accept, classes, 1);
    let (mut completed, mut scratch) = ([7u32; 64], [7u32; 64]);
    let mut backward = Backward::cut(8, &mut scratch);
    beyond(t, Set(0), &mut completed, &mut backward);
    let completed = Listed(first_of(&completed, classes));
    println!(rt; "beyond:{completed}")
}

// The table of the sets of classes without the dead one, with at most `most` sets.
pub fn subsets_case<'a>(
    rt: &HostRuntime,
    rows: &'a [u32],
    accept: &'a [u32],
    classes: usize,
    completed: &[u32],
    dead: Option<usize>,
    most: usize,
) -> io::Result<()>
    requires { (classes ≤ most) × ((most ≤ 8) × (classes ≤ length completed.now)) }
{
    if !is_table(rows, accept, classes, 1) {
        return println!(rt; "subsets: no table");
    }
    let t = table(rows, accept, classes, 1);
    let (mut new_rows, mut new_accept) = ([7u32; 64], [7u32; 64]);
    let (mut words, mut heads) = ([7u32; 64], [7u32; 4]);
    let (mut links, mut buckets) = ([7u32; 64], [7u32; 64]);
    let mut sheet = Sheet {
        rows: &mut new_rows,
        accept: &mut new_accept,
        shape: Shape::new(most, 1),
    };
    let mut sets = Sets {
        part: Projection {
            t,
            x: Set(0),
            dead,
            completed,
            w: 1,
        },
        most,
        sets: &mut words,
        heads: &mut heads,
        links: &mut links,
        buckets: &mut buckets,
    };
    match subsets(&mut sets, &mut sheet) {
        Some(count) => {
            let (rows, accept) = (sheet.rows, sheet.accept);
            let listing = Listing {
                rows,
                accept,
                classes: count,
            };
            println!(rt; "subsets, at most {most}: {listing}")
        }
        None => println!(rt; "subsets, at most {most}: more"),
    }
}
