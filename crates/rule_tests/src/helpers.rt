// Files with claims that may help to keep another one, read; worked out by hand.
use formulas::formula::{Formula, Group};
use rule_source::claimed::claims_of;
use rule_source::helpers::helper_names;
use rule_source::kept::keeps_of;
use rule_source::source::source_of;
use std::alloc::Global;
use std::test::Fail;

const RULE: &str = "bits: tray
helpers:
  full: row sub tray
start: tray sub row
  tray_there: (tray # (
    sub row)
allowed:
  * | * | *
kept no_tray: tray sub empty
helpers:
helpers:
  full_again : row sub tray
never tray_alone: none | tray | none
";

fn within(x: u32, y: u32) -> Formula {
    Formula::Sub(Group::Named(x), Group::Named(y))
}

#[test]
fn helpers_have_names(rt: HostRuntime) -> Result<(), Fail> {
    let alloc = rt.alloc();
    let source = source_of(alloc, RULE).ok().ok_or("a rule")?;
    let names = helper_names(alloc, &source).ok().ok_or("names")?;
    assert!(rt; names.as_slice() == ["full", "tray_there", "full_again"].as_slice());
    let [full, there, again] = source.helpers.as_slice() else {
        return Err(Fail::from("three helpers"));
    };
    assert!(rt; *full == within(1, 0));
    assert!(rt; *there == within(0, 1));
    assert!(rt; *again == within(1, 0));
    Ok(())
}

#[test]
fn helpers_are_no_claims(rt: HostRuntime) -> Result<(), Fail> {
    let alloc = rt.alloc();
    let source = source_of(alloc, RULE).ok().ok_or("a rule")?;
    assert!(rt; source.rule.limits.is_empty());
    assert!(rt; source.starts.len() == 1 && source.rule.allowed.len() == 1);
    let keeps = keeps_of(alloc, &source).ok().ok_or("what is kept")?;
    assert!(rt; keeps.len() == 1);
    let claims = claims_of(alloc, &source).ok().ok_or("claims")?;
    assert!(rt; claims.len() == 1);
    Ok(())
}

#[test]
fn no_helpers(rt: HostRuntime) -> Result<(), Fail> {
    let alloc = rt.alloc();
    for text in ["bits: a\nhelpers:\n", "bits: a"] {
        let source = source_of(alloc, text).ok().ok_or("a rule")?;
        assert!(rt; source.helpers.is_empty());
        let names = helper_names(alloc, &source).ok().ok_or("no names")?;
        assert!(rt; names.is_empty());
    }
    Ok(())
}

// What is wrong with a helper: the message, and the first byte.
fn said(alloc: Global, text: &str) -> Result<String, Fail> {
    let fault = source_of(alloc, text).err().ok_or("a fault")?;
    let at = fault.span(text).ok_or("a place")?.start;
    let message = fault.message(text);
    Ok(format!(in alloc; "{at}: {message}")?)
}

#[test]
fn faults_of_helpers(rt: HostRuntime) -> Result<(), Fail> {
    let cases = [
        (
            "bits: a\nhelpers:\n  next: a' sub row",
            "25: expected a name that is declared or bound, found `a'`",
        ),
        (
            "bits: a\nring:\nhelpers:\n  all: a sub row",
            "36: expected a name that is declared or bound, found `row`",
        ),
        (
            "bits: a\nhelpers:\n  two: a; a sub row",
            "25: expected the end of the formula, found `;`",
        ),
    ];
    for (text, want) in cases {
        let got = said(rt.alloc(), text)?;
        assert_eq!(rt; got.as_str(), want, "at {text}");
    }
    Ok(())
}
