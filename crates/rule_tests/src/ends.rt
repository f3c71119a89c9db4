// Claims of rule files about the row with its ends: what quantifiers bind is in the row, and `last` is its last place.
use rule_check::first_row::first_row;
use rule_check::verdict::Verdict;
use rule_source::claimed::claims_of;
use rule_source::source::source_of;
use std::alloc::Global;
use std::test::Fail;

const RULE: &str = "bits: tray
allowed:
  * | module | *
table:
  * | tray | !tray -> !tray moves
  tray | !tray | * -> tray moves
claim all_there: all1 p: p in row
claim sets_there: all2 X: X sub row
claim last_there: last in row & last + 1 notin row
claim last: last = max row & (all1 p: p <= last)
claim some_behind: ex1 p: p notin row
claim first_is_last: last = 0
claim kept_before_last: all1 p: p in tray & p ~= last => p in tray' | p + 1 in tray'
claim last_is_free: last notin tray'
";

// The first row of which the claim with a number is not so.
fn failing(alloc: Global, text: &str, number: usize) -> Result<Option<Vec<u32>>, Fail> {
    let source = source_of(alloc, text).ok().ok_or("a rule")?;
    let claims = claims_of(alloc, &source).ok().ok_or("claims")?;
    let claim = claims.get(number).ok_or("a claim")?;
    match first_row(alloc, &claim.question, u32::MAX)? {
        Verdict::Never => Ok(None),
        Verdict::First(row) => Ok(Some(row)),
        _ => Err(Fail::from("an answer")),
    }
}

#[test]
fn claims_that_hold(rt: HostRuntime) -> Result<(), Fail> {
    for number in [0, 1, 2, 3, 6usize] {
        let row = failing(rt.alloc(), RULE, number)?;
        assert!(rt; row.is_none(), "at claim {number}");
    }
    Ok(())
}

#[test]
fn claims_that_fail(rt: HostRuntime) -> Result<(), Fail> {
    let alloc = rt.alloc();
    let behind = failing(alloc, RULE, 4)?.ok_or("a row")?;
    assert_eq!(rt; behind.as_slice(), [0].as_slice());
    let first = failing(alloc, RULE, 5)?.ok_or("a row")?;
    assert_eq!(rt; first.as_slice(), [0, 0].as_slice());
    let free = failing(alloc, RULE, 7)?.ok_or("a row")?;
    assert_eq!(rt; free.as_slice(), [1, 0].as_slice());
    Ok(())
}
