// What a text declares and assumes.
ghost use Rattle.std.specs.Prelude.{◌≡◌, ◌++◌, map, string_bytes, IfOk, OnOk};
ghost use Rattle.resolve.specs.Asks.{declared};
ghost use Rattle.claim_report.specs.Named.{names_of, row_names};
ghost use Rattle.claim_report.specs.Subjects.{nothing, shape_of, subject_from};

use crate::told::Subject;
use resolve::scope::Shape;
use std::alloc::{AllocError, Global};
use trees::tree::{Ends, Item, Name, Row, Sort};

// The names behind those that are there.
fn push_names<'t>(all: &mut Vec<&'t str>, names: &'t [Name]) -> Result<(), AllocError>
    ensures { OnOk result (map (λ n. n.now) all.new.items ≡ map (λ n. n.now) all.old.items ++ map (λ x. string_bytes x.text) names.now) }
{
    let mut rest = names;
    while let [name, more @ ..] = rest {
        all.push(name.text.as_str())?;
        rest = more;
    }
    Ok(())
}

/// The names of the declared places and sets, in the order of declaration. Fails for memory.
pub fn names_of<'t>(alloc: Global, items: &'t [Item]) -> Result<Vec<&'t str>, AllocError>
    ensures { IfOk result (λ names. map (λ n. n.now) names.items ≡ names_of items.now) }
{
    let mut all = Vec::new(alloc);
    let mut rest = items;
    while let [item, more @ ..] = rest {
        if let Item::Free(_, names) = item {
            push_names(&mut all, names)?;
        }
        rest = more;
    }
    Ok(all)
}

/// The names of the sets of the text's claim: those of the declared places and sets, and behind them that of the row or the ring, if one is spoken of. Fails for memory.
pub fn set_names<'t>(alloc: Global, items: &'t [Item]) -> Result<Vec<&'t str>, AllocError>
    ensures { IfOk result (λ names. map (λ n. n.now) names.items ≡ names_of items.now ++ row_names (declared items.now)) }
{
    let mut all = names_of(alloc, items)?;
    let mut rest = items;
    while let [item, more @ ..] = rest {
        match item {
            Item::Row(row) => all.push(row.places.text.as_str())?,
            Item::Free(_, _) => {}
            Item::Predicate(_) | Item::Assert(_) | Item::Formula(_) => {}
        }
        rest = more;
    }
    Ok(all)
}

// Whether it is a row or a ring.
fn shape_of(row: &Row) -> Shape
    ensures { result ≡ shape_of row.now }
{
    match &row.ends {
        Ends::Last(_) => Shape::Row,
        Ends::Round => Shape::Ring,
    }
}

/// What the text's claim is about.
pub fn subject_of(items: &[Item]) -> Subject
    ensures { result ≡ subject_from nothing items.now }
{
    let mut subject = Subject {
        places: false,
        sets: false,
        shape: None,
        assumes: false,
    };
    let mut rest = items;
    while let [item, more @ ..] = rest {
        match item {
            Item::Free(Sort::Place, _) => subject.places = true,
            Item::Free(Sort::Set, _) => subject.sets = true,
            Item::Row(row) => subject.shape = Some(shape_of(row)),
            Item::Assert(_) => subject.assumes = true,
            Item::Predicate(_) | Item::Formula(_) => {}
        }
        rest = more;
    }
    subject
}
