// Pairs of numbers below m, numbered as they come.
ghost use Rattle.std.specs.Prelude.{◌^◌, ◌<◌};
ghost use Rattle.tables.specs.Numbering.{Numbered};
ghost use Rattle.minimize.specs.Pairs.{Room, Interned};

use tables::cells::Class;
use tables::numbering::{Sizes, find_pair, note_pair};

// The number of the pair (x, y), which gets the next number if it has none.
pub fn intern(
    lefts: &mut [u32],
    rights: &mut [u32],
    index: &mut [u32],
    m: usize,
    count: usize,
    x: u32,
    y: u32,
) -> u32
    requires room { Room m lefts.old rights.old index.old }
    requires pairs { Numbered m m lefts.old rights.old index.old count }
    requires count { count < m }
    requires x { x < m }
    requires y { y < m }
    requires few { m < 2 ^ 32 }
    ensures { Interned m count x y lefts.old rights.old lefts.new rights.new index.new result }
{
    let sizes = Sizes { left: m, right: m };
    match find_pair(lefts, rights, index, count, sizes, Class(x), Class(y)) {
        Some(i) => i as u32,
        None => {
            note_pair(lefts, rights, index, count, sizes, Class(x), Class(y));
            count as u32
        }
    }
}
