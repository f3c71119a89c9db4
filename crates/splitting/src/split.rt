// The classes of a table parted into those that are alike, by the smaller half (Hopcroft 1971).
//
// What is looked for is the coarsest partition of the classes that keeps apart what accepts from
// what does not, and is stable: each column leads the classes of one part into one part. Its parts
// are exactly the classes that are alike. A partition is kept that is coarser than that one, or
// equal: at first it has two parts, the classes that accept and the others, and parts are only ever
// cut, each time because a column leads their classes into different parts.
//
// A part that waits is taken as the splitter. For each column, every part of which the column leads
// some classes into the splitter, but not all, is cut into these two pieces. Which classes those
// are is read off lists of who comes to each class of the splitter, so that no class is looked at
// that does not go there.
//
// Why it is right (`Splitting`). Beside the partition in memory there is an older, coarser one that
// no memory holds: each part that does not wait any more, merged with the waiting parts that came
// off it. Three facts last from one splitter to the next. Classes that are alike are together, and
// classes that are together accept alike. Each column leads the classes of one part into one older
// part: by the older parts nothing is left to cut. And of the parts that make up an older part all
// but at most one wait. A splitter that has been taken becomes an older part of its own: by each
// column all classes of a part go into it or none does, and so all into what is left of its older
// part or none (`Splits` says this column by column). Once no part waits, each older part is one
// part, and so the partition is stable. It may be left before that where every class is alone,
// since then nothing can be cut.
//
// Why a new piece waits. Where a part is cut, both pieces lie in its older part. If the part
// waited, both have to wait; if it did not, it was the one that need not, and one of its pieces has
// to, no matter which. So the piece with the new number always waits, and the other keeps the
// number and waits if the part did.
// Parts are taken in the order of their numbers: those from `done` on are the ones that wait, and
// neither marks nor a list of them are kept.
//
// Why by the smaller half. It is the smaller piece that gets the new number. A class that was in a
// splitter waits again only as part of such a piece, with at most half as many classes as before:
// so it is in at most log2 m + 1 splitters, where m is the number of classes, and each entry of the
// table is followed as often. In all that is m * log2 m steps for each column. (No proof counts
// steps; that the new piece is the smaller is in the contract of `halve`.)
//
// In memory the classes stand part by part (`Places`, `Parting`), and a class is marked to be cut
// off by a swap to the front of its part (`Marks`): no step goes over a whole part but for those
// that write the new number of the smaller piece. Columns that lead every class where an earlier
// one does are passed over: what they would cut, the earlier one has cut.
//
// Splitting pays on tables of some size. Joining takes it from 16 classes on, where its scratch has
// room for the lists, and else goes over all columns in rounds.
ghost use Rattle.std.specs.Prelude.{◌≡◌, ℕ, ◌+◌, ◌*◌, ◌^◌, ◌<◌, ◌≤◌, length, slice_index};
ghost use Rattle.automata.specs.Joined.{Stable};
ghost use Rattle.tables.specs.View.{moves, accepting};
ghost use Rattle.splitting.specs.Places.{Unmarked};
ghost use Rattle.splitting.specs.Repeats.{Repeats};
ghost use Rattle.splitting.specs.Split.{Room, Cleft};
ghost use Rattle.splitting.specs.Lent.{Stand, PartsWait};

use crate::comers::{Column, Lists, list_comers};
use crate::cutting::cut_touched;
use crate::marking::{Splitter, mark_accepting, mark_column};
use crate::places::{Marks, Parting, Places, arrange, list_members};
use crate::repeats::{is_marked, mark_repeats};
use crate::scratch::Scratch;
use tables::cells::WordTable;

// Parts the classes by acceptance: all classes are one part, and those that accept are cut off.
fn start(t: WordTable, places: &mut Places, parting: &mut Parting, marks: &mut Marks)
    requires some { 0 < t.table.classes }
    requires few { t.table.classes < 2 ^ 32 }
    requires order { t.table.classes ≤ length places.old.order.now }
    requires place { t.table.classes ≤ length places.old.place.now }
    requires part { t.table.classes ≤ length parting.old.part.now }
    requires begin { t.table.classes ≤ length parting.old.begin.now }
    requires end { t.table.classes ≤ length parting.old.end.now }
    requires cut { t.table.classes ≤ length marks.old.cut.now }
    requires touched { t.table.classes ≤ length marks.old.touched.now }
    ensures waiting { PartsWait t.entry 1 places.new parting.new marks.new }
    ensures room { t.entry.table.classes ≤ length marks.new.touched.now }
    ensures same_part { parting.new.part.ghost_name ≡ parting.old.part.ghost_name }
{
    let table = t.table;
    let cut = &mut *marks.cut;
    arrange(table.classes, places, parting, cut);
    let tail = mark_accepting(table, places, parting, marks);
    cut_touched(table.classes, tail, places, parting, marks);
}

// Cuts every part by whether the column leads its classes to one of the splitter.
fn split_column(
    column: Column,
    splitter: Splitter,
    places: &mut Places,
    parting: &mut Parting,
    marks: &mut Marks,
)
    requires members { (i : ℕ) → i < splitter.size → slice_index splitter.members.now i < column.table.classes }
    requires room { column.table.classes ≤ length marks.old.touched.now }
    requires arranged { Stand column.table.classes places.old parting.old marks.old.cut.now }
    requires clean { Unmarked parting.old.count parting.old.begin.now marks.old.cut.now }
    ensures cleft { Cleft column.entry.table.classes parting.old.count
        (λ q. moves column.entry.table q column.entry.number)
        splitter.entry.members.now splitter.entry.size parting.old.part.now
        parting.new.count places.new.order.now places.new.place.now parting.new.part.now parting.new.begin.now parting.new.end.now marks.new.cut.now }
    ensures room { column.entry.table.classes ≤ length marks.new.touched.now }
    ensures same_part { parting.new.part.ghost_name ≡ parting.old.part.ghost_name }
{
    let classes = column.table.classes;
    let tail = mark_column(column, splitter, places, parting, marks);
    cut_touched(classes, tail, places, parting, marks);
}

// Cuts every part, column by column, by whether the column leads its classes to one of part b,
// which waits; then b does not wait any more.
// Invariant: the parts are cut by the columns before a.
fn split_by(
    lists: Lists,
    b: usize,
    places: &mut Places,
    parting: &mut Parting,
    marks: &mut Marks,
    members: &mut [u32],
)
    requires part { b < parting.old.count }
    requires repeats { Repeats lists.table.table.classes lists.table.table.width (moves lists.table.table) lists.repeats.now }
    requires touched { lists.table.table.classes ≤ length marks.old.touched.now }
    requires members { lists.table.table.classes ≤ length members.old }
    requires waiting { PartsWait lists.table b places.old parting.old marks.old }
    ensures waiting { PartsWait lists.entry.table (b + 1) places.new parting.new marks.new }
    ensures room { lists.entry.table.table.classes ≤ length marks.new.touched.now }
    ensures same_part { parting.new.part.ghost_name ≡ parting.old.part.ghost_name }
{
    let t = lists.table.table;
    let size = list_members(t.classes, b, places, parting, members);
    let splitter = Splitter { members, size };
    for a in 0..t.width as u32 {
        if !is_marked(lists.repeats, a) {
            let column = Column {
                table: t,
                number: a,
                heads: lists.heads,
                links: lists.links,
            };
            split_column(column, splitter, places, parting, marks);
        }
    }
}

// Splits by one part after the other, until none waits or every class is alone. At first all parts
// but part 0 wait.
// Invariant: those from `done` on wait.
fn split_all(
    lists: Lists,
    places: &mut Places,
    parting: &mut Parting,
    marks: &mut Marks,
    members: &mut [u32],
)
    requires repeats { Repeats lists.table.table.classes lists.table.table.width (moves lists.table.table) lists.repeats.now }
    requires touched { lists.table.table.classes ≤ length marks.old.touched.now }
    requires members { lists.table.table.classes ≤ length members.old }
    requires waiting { PartsWait lists.table 1 places.old parting.old marks.old }
    ensures stable { Stable lists.entry.table.sets lists.entry.table.table.classes (moves lists.entry.table.table) (accepting lists.entry.table.table) (λ q. slice_index parting.new.part.now q) }
    ensures below { (q : ℕ) → q < lists.entry.table.table.classes → slice_index parting.new.part.now q < lists.entry.table.table.classes }
    ensures same_part { parting.new.part.ghost_name ≡ parting.old.part.ghost_name }
{
    let mut done = 1;
    while done < parting.count {
        if parting.count == lists.table.table.classes {
            return;
        }
        split_by(lists, done, places, parting, marks, members);
        done += 1;
    }
}

// Parts the classes into those that are alike: `part` gets the part of each class. The parts are
// numbered as they came.
pub fn split(t: WordTable, part: &mut [u32], scratch: &mut Scratch)
    requires some { 0 < t.table.classes }
    requires few { t.table.classes < 2 ^ 32 }
    requires part { t.table.classes ≤ length part.old }
    requires room { Room t.table.classes (t.table.classes * t.table.width) scratch.old }
    ensures stable { Stable t.entry.sets t.entry.table.classes (moves t.entry.table) (accepting t.entry.table) (λ q. slice_index part.new q) }
    ensures below { (q : ℕ) → q < t.entry.table.classes → slice_index part.new q < t.entry.table.classes }
{
    let (heads, links, repeats) = (
        &mut *scratch.heads,
        &mut *scratch.links,
        &mut *scratch.repeats,
    );
    mark_repeats(t, repeats);
    list_comers(t.table, repeats, heads, links);
    let lists = Lists {
        table: t,
        repeats,
        heads,
        links,
    };
    let mut places = Places {
        order: &mut *scratch.order,
        place: &mut *scratch.place,
    };
    let mut parting = Parting {
        count: 1,
        part,
        begin: &mut *scratch.begin,
        end: &mut *scratch.end,
    };
    let mut marks = Marks {
        cut: &mut *scratch.cut,
        touched: &mut *scratch.touched,
    };
    let members = &mut *scratch.members;
    start(t, &mut places, &mut parting, &mut marks);
    split_all(lists, &mut places, &mut parting, &mut marks, members);
}
