// Rule files about rings: how they are read, and what is found of them, worked out by hand.
use rows::rule::Layout;
use rule_check::first_row::first_row;
use rule_check::verdict::Verdict;
use rule_source::claimed::claims_of;
use rule_source::fault::Fault;
use rule_source::source::source_of;
use rules::property::Property;
use rules::question::Question;
use std::alloc::Global;
use std::test::Fail;

#[test]
fn a_file_says_how_modules_lie(rt: HostRuntime) -> Result<(), Fail> {
    let line = "bits: bag\nallowed:\n  none | bag | *\n";
    let source = source_of(rt.alloc(), line).ok().ok_or("a rule")?;
    assert!(rt; source.rule.layout == Layout::Line);
    let ring = "bits: bag\nring:\nallowed:\n  module | bag | *\n";
    let source = source_of(rt.alloc(), ring).ok().ok_or("a rule")?;
    assert!(rt; source.rule.layout == Layout::Ring);
    Ok(())
}

// Where a file is at fault, as the bytes of the word.
fn fault_at(alloc: Global, text: &str) -> Result<(usize, usize), Fail> {
    match source_of(alloc, text) {
        Err(Fault::Unfit(span)) => Ok((span.start, span.end)),
        Err(Fault::Unreached(span, _)) => Ok((span.start, span.end)),
        _ => Err(Fail::from("a fault")),
    }
}

#[test]
fn beside_each_module_of_a_ring_stands_one(rt: HostRuntime) -> Result<(), Fail> {
    let alloc = rt.alloc();
    let left = fault_at(alloc, "bits: bag\nring:\nallowed:\n  none | * | *\n")?;
    assert!(rt; left == (27, 31));
    let right = fault_at(
        alloc,
        "bits: bag\nring:\ntable:\n  * | bag | none -> waits\n",
    )?;
    assert!(rt; right == (35, 39));
    let behind = "bits: bag\nring:\ntable:\n  module | bag | * -> waits\n  * | bag | * -> moves\n";
    assert!(rt; fault_at(alloc, behind)? == (53, 64));
    Ok(())
}

// Bags go to the right where there is room. A ring that is full is stuck.
const LOOP: &str = "bits: bag
ring:
allowed:
  * | * | *
table:
  * | bag | !bag -> !bag moves
  bag | !bag | * -> bag moves
  * | !bag | * -> moves
never alone_beside_itself: bag | bag | bag
claim round: all1 p: p in bag => p in bag' | p + 1 in bag'
claim back: all1 p: p in bag' => p in bag | p - 1 in bag
claim two: |ring| mod 2 = 0 => ring ~= bag
claim moved: all1 p: p in bag => p + 1 in bag'
";

// The first ring of which the claim with a number is not so.
fn failing(alloc: Global, number: usize) -> Result<Option<Vec<u32>>, Fail> {
    let source = source_of(alloc, LOOP).ok().ok_or("a rule")?;
    let claims = claims_of(alloc, &source).ok().ok_or("claims")?;
    let claim = claims.get(number).ok_or("a claim")?;
    match first_row(alloc, &claim.question, u32::MAX)? {
        Verdict::Never => Ok(None),
        Verdict::First(row) => Ok(Some(row)),
        _ => Err(Fail::from("an answer")),
    }
}

#[test]
fn claims_go_round(rt: HostRuntime) -> Result<(), Fail> {
    let alloc = rt.alloc();
    let alone = failing(alloc, 0)?.ok_or("a ring")?;
    assert!(rt; alone.as_slice() == [1].as_slice());
    assert!(rt; failing(alloc, 1)?.is_none());
    assert!(rt; failing(alloc, 2)?.is_none());
    let two = failing(alloc, 3)?.ok_or("a ring")?;
    assert!(rt; two.as_slice() == [1, 1].as_slice());
    let moved = failing(alloc, 4)?.ok_or("a ring")?;
    assert!(rt; moved.as_slice() == [0, 1, 1].as_slice());
    Ok(())
}

#[test]
fn a_full_ring_is_stuck(rt: HostRuntime) -> Result<(), Fail> {
    let alloc = rt.alloc();
    let source = source_of(alloc, LOOP).ok().ok_or("a rule")?;
    let question = Question::new(alloc, &source.rule, Property::Stuck)?;
    match first_row(alloc, &question, u32::MAX)? {
        Verdict::First(row) => assert!(rt; row.as_slice() == [1].as_slice()),
        _ => return Err(Fail::from("a stuck ring")),
    }
    Ok(())
}
