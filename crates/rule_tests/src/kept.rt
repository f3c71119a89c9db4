// Files that say how a run may begin and what is kept, read; worked out by hand.
use formulas::formula::{Formula, Group};
use rule_source::claimed::claims_of;
use rule_source::kept::keeps_of;
use rule_source::source::source_of;
use std::alloc::Global;
use std::test::Fail;

const RULE: &str = "bits: tray
start: tray sub row
allowed:
  * | * | *
allowed: row sub tray
table:
  * | tray | * -> !tray moves
kept full: row sub tray
start: tray sub empty
kept tray_there: tray sub row
never tray_alone: none | tray | none
";

fn within(x: u32, y: u32) -> Formula {
    Formula::Sub(Group::Named(x), Group::Named(y))
}

#[test]
fn starts_are_no_limits(rt: HostRuntime) -> Result<(), Fail> {
    let source = source_of(rt.alloc(), RULE).ok().ok_or("a rule")?;
    let [limit] = source.rule.limits.as_slice() else {
        return Err(Fail::from("a limit"));
    };
    assert!(rt; *limit == within(1, 0));
    let [first, second] = source.starts.as_slice() else {
        return Err(Fail::from("two starts"));
    };
    assert!(rt; *first == within(0, 1));
    assert!(rt; *second == Formula::Sub(Group::Named(0), Group::Empty));
    Ok(())
}

#[test]
fn kept_claims(rt: HostRuntime) -> Result<(), Fail> {
    let alloc = rt.alloc();
    let source = source_of(alloc, RULE).ok().ok_or("a rule")?;
    let keeps = keeps_of(alloc, &source).ok().ok_or("what is kept")?;
    let [full, there] = keeps.as_slice() else {
        return Err(Fail::from("two claims"));
    };
    assert!(rt; full.name == "full" && *full.keeping.claim == within(1, 0));
    assert!(rt; there.name == "tray_there" && *there.keeping.claim == within(0, 1));
    assert!(rt; there.keeping.start == source.starts.as_slice());
    let claims = claims_of(alloc, &source).ok().ok_or("claims")?;
    let [alone] = claims.as_slice() else {
        return Err(Fail::from("a claim of each row"));
    };
    assert!(rt; alone.name == "tray_alone");
    Ok(())
}

// What is wrong with what a file claims to be kept: the message, and the first byte.
fn said(alloc: Global, text: &str) -> Result<String, Fail> {
    let fault = match source_of(alloc, text) {
        Err(fault) => fault,
        Ok(source) => match keeps_of(alloc, &source) {
            Err(fault) => fault,
            Ok(_) => return Err(Fail::from("a fault")),
        },
    };
    let at = fault.span(text).ok_or("a place")?.start;
    let message = fault.message(text);
    Ok(format!(in alloc; "{at}: {message}")?)
}

#[test]
fn faults_of_kept_claims(rt: HostRuntime) -> Result<(), Fail> {
    let cases = [
        (
            "bits: a\nkept same: a = a",
            "13: expected a line `start:` in a file that claims what is kept",
        ),
        (
            "bits: a\nstart: a' sub row",
            "15: expected a name that is declared or bound, found `a'`",
        ),
        (
            "bits: a\nstart: a sub row\nkept same: a = a'",
            "40: expected a name that is declared or bound, found `a'`",
        ),
        (
            "bits: a\nring:\nstart: a sub row",
            "27: expected a name that is declared or bound, found `row`",
        ),
        (
            "bits: a\nstart: a; a sub row",
            "16: expected the end of the formula, found `;`",
        ),
    ];
    for (text, want) in cases {
        let got = said(rt.alloc(), text)?;
        assert_eq!(rt; got.as_str(), want, "at {text}");
    }
    Ok(())
}

#[test]
fn nothing_kept_needs_no_start(rt: HostRuntime) -> Result<(), Fail> {
    let alloc = rt.alloc();
    let source = source_of(alloc, "bits: a\nstart: a sub row")
        .ok()
        .ok_or("a rule")?;
    let keeps = keeps_of(alloc, &source).ok().ok_or("nothing")?;
    assert!(rt; keeps.is_empty());
    let source = source_of(alloc, "bits: a").ok().ok_or("a rule")?;
    assert!(rt; keeps_of(alloc, &source).is_ok());
    assert!(rt; source.starts.is_empty());
    Ok(())
}
