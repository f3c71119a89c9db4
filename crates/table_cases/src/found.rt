// The last steps of a table's first words, and the first words that it accepts and does not.
ghost use Rattle.std.specs.Prelude.{ℕ, ◌^◌, ◌<◌, ◌≤◌, length, slice_index};

use crate::checked::{is_table, table};
use crate::listing::{Listed, first_of};
use shortest::first::first;
use shortest::spell::{word_length, write_word};
use shortest::steps::steps;
use std::io;
use tables::cells::Table;

// The first word that the table accepts (`wanted` is true) or does not (false), where the steps of
// its class are noted.
fn word_case(
    rt: &HostRuntime,
    t: Table,
    prev: &[u32],
    via: &[u32],
    noted: usize,
    wanted: bool,
) -> io::Result<()>
    requires few { t.classes < 2 ^ 32 }
    requires falls { (j : ℕ) → 0 < j → j < noted → slice_index prev.now j < j }
    requires room { (noted ≤ length prev.now) × (noted ≤ length via.now) }
{
    let Some(j) = first(t, wanted) else {
        return println!(rt; "first {wanted}: none");
    };
    if j >= noted {
        return println!(rt; "first {wanted}: class {j} is not in order");
    }
    let n = word_length(prev, j);
    let mut out = [7u32; 64];
    if n > 64 {
        return println!(rt; "first {wanted}, length {n}");
    }
    let word = &mut out[0..n];
    write_word(prev, via, j, word);
    let word = Listed(word);
    println!(rt; "first {wanted}, length {n}:{word}")
}

// From where the classes are met, up to the last, as far as they are in order, and the two first
// words.
pub fn steps_case(rt: &HostRuntime, rows: &[u32], accept: &[u32], classes: usize) -> io::Result<()>
    requires { (0 < classes) × (classes ≤ 8) }
{
    if !is_table(rows, accept, classes, 1) {
        return println!(rt; "steps: no table");
    }
    let t = table(rows, accept, classes, 1);
    let (mut prev, mut via) = ([7u32; 64], [7u32; 64]);
    let noted = steps(t, classes - 1, &mut prev, &mut via);
    let from = Listed(first_of(&prev[1..], noted.saturating_sub(1)));
    println!(rt; "steps from:{from}")?;
    word_case(rt, t.table, &prev, &via, noted, true)?;
    word_case(rt, t.table, &prev, &via, noted, false)
}
