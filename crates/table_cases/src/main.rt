// Each operation on tables, on a table that is written out by hand, with its result printed.
// The tables are over the columns of one set: column 0 has no place of it, column 1 has one.
//     A: an even number of columns are 1. Classes 0 and 1: even, odd.
//     B: some column is 1. Classes 0 and 1: none yet, some.
//     C: exactly one column is 1. Classes 0, 1 and 2: none yet, one, more.
//     D: class 0 leads to 1, and class 1 to 0 and 1.
//     E: a 1 behind a 0. Classes 0, 1 and 2: none yet, a 0, both.
#![tactic(auto)]

mod atom_case;
mod checked;
mod combined;
mod found;
mod joined;
mod listing;
mod projected;

use atom_case::atom_case;
use checked::is_table;
use combined::{complement_case, product_case};
use found::steps_case;
use joined::join_case;
use kinds::atom::Atom;
use kinds::multiple::{Multiple, Remainder};
use kinds::relation::Relation;
use projected::{beyond_case, subsets_case};
use std::io;

// Words that are no table: an entry that is the number of no class, too few rows, too few words of
// acceptance, no class at all.
fn refused_case(rt: &HostRuntime) -> io::Result<()> {
    let entry = is_table(&[0, 2, 1, 0], &[1, 0], 2, 1);
    let rows = is_table(&[0, 1, 1], &[1, 0], 2, 1);
    let accept = is_table(&[0, 1, 1, 0], &[1], 2, 1);
    let none = is_table(&[0, 1, 1, 0], &[1, 0], 0, 1);
    println!(rt; "no tables: {entry} {rows} {accept} {none}")
}

// Of B and C: C with its dead class, and as if it had none. Of D the three sets {0}, {1} and {0,
// 1}, where two are allowed and where more are.
fn project_cases(rt: &HostRuntime) -> io::Result<()> {
    beyond_case(rt, &[0, 1, 1, 1], &[0, 1], 2)?;
    beyond_case(rt, &[0, 1, 1, 2, 2, 2], &[0, 1, 0], 3)?;
    subsets_case(rt, &[0, 1, 1, 1], &[0, 1], 2, &[1, 1], None, 8)?;
    subsets_case(
        rt,
        &[0, 1, 1, 2, 2, 2],
        &[0, 1, 0],
        3,
        &[1, 1, 0],
        Some(2),
        8,
    )?;
    subsets_case(rt, &[0, 1, 1, 2, 2, 2], &[0, 1, 0], 3, &[1, 1, 0], None, 8)?;
    subsets_case(rt, &[1, 1, 0, 1], &[0, 1], 2, &[0, 1], None, 8)?;
    subsets_case(rt, &[1, 1, 0, 1], &[0, 1], 2, &[0, 1], None, 2)
}

// Of B and E, of E with its last two classes exchanged, so that they are not in the order of their
// first words, and of a table that accepts every word.
fn steps_cases(rt: &HostRuntime) -> io::Result<()> {
    steps_case(rt, &[0, 1, 1, 1], &[0, 1], 2)?;
    steps_case(rt, &[1, 0, 1, 2, 2, 2], &[0, 0, 1], 3)?;
    steps_case(rt, &[2, 0, 1, 1, 2, 1], &[0, 1, 0], 3)?;
    steps_case(rt, &[0, 0], &[1], 1)
}

// That set 2 has exactly one place, which is C over the columns of set 2, and that set 1 has a
// multiple of three places and one besides.
fn atom_cases(rt: &HostRuntime) -> anyhow::Result<()> {
    let single = Atom::Related(Relation::Single(2));
    atom_case(rt, single, 4)?;
    atom_case(rt, single, 2)?;
    let Some(remainder) = Remainder::new(3, 1) else {
        unreachable()
    };
    let multiple = Atom::Counted(Multiple { remainder, set: 1 });
    atom_case(rt, multiple, 3)?;
    atom_case(rt, multiple, 2)?;
    Ok(())
}

fn run(rt: &HostRuntime) -> anyhow::Result<()> {
    refused_case(rt)?;
    complement_case(rt)?;
    product_case(rt, 3)?;
    product_case(rt, 2)?;
    project_cases(rt)?;
    join_case(rt)?;
    steps_cases(rt)?;
    atom_cases(rt)
}

fn main(rt: HostRuntime) -> anyhow::Result<()> {
    run(&rt)
}
