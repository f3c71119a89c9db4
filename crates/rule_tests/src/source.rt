// What is read of rule files, worked out by hand.
use formulas::formula::{Formula, Group, Place};
use rows::rule::{Asked, Literal, NewBit, Side};
use rule_source::claimed::{Put, claims_of};
use rule_source::fault::Fault;
use rule_source::source::source_of;
use rules::property::Property;
use std::alloc::Global;
use std::test::Fail;

const RULE: &str = "bits: tray fork
allowed:
  module !tray | * | none
  * | module | *
allowed: all1 p: p in fork => p notin tray
table:
  * | tray | !tray -> fork=left.tray moves !tray
row: tray . tray+fork
never gap: none | fork | *
claim forks_stay: all1 p: p in fork => p in fork'
";

fn literal(side: Side, asked: Asked, set: bool) -> Literal {
    Literal { side, asked, set }
}

#[test]
fn patterns_and_lines(rt: HostRuntime) -> Result<(), Fail> {
    let source = source_of(rt.alloc(), RULE).ok().ok_or("a rule")?;
    assert!(rt; source.rule.bits == 2);
    let [ends, _] = source.rule.allowed.as_slice() else {
        return Err(Fail::from("two patterns"));
    };
    let first = [
        literal(Side::Left, Asked::There, true),
        literal(Side::Left, Asked::Bit(0), false),
        literal(Side::Right, Asked::There, false),
    ];
    assert!(rt; ends.literals() == first.as_slice());
    let [line] = source.rule.table.as_slice() else {
        return Err(Fail::from("a line"));
    };
    let bits = [NewBit::Fixed(false), NewBit::AsWas(Side::Left, 0)];
    assert!(rt; line.moves() && line.bits() == bits.as_slice());
    let [row] = source.rows.as_slice() else {
        return Err(Fail::from("a row"));
    };
    assert!(rt; row.columns.as_slice() == [1, 0, 3].as_slice());
    Ok(())
}

// Of all places p of the row that are in set x something is so, where p has the number that is free next.
fn all_in(
    alloc: Global,
    p: u32,
    row: u32,
    x: u32,
    then: Box<Formula>,
) -> Result<Box<Formula>, Fail> {
    let inside = Box::new(alloc, Formula::Implies(place_in(alloc, p, x)?, then))?;
    let implies = Box::new(alloc, Formula::Implies(place_in(alloc, p, row)?, inside))?;
    let all = Box::new(alloc, Formula::All1(p, implies))?;
    Ok(all)
}

fn place_in(alloc: Global, p: u32, x: u32) -> Result<Box<Formula>, Fail> {
    let within = Box::new(alloc, Formula::In(Place::Named(p), Group::Named(x)))?;
    Ok(within)
}

fn not_in(alloc: Global, p: u32, x: u32) -> Result<Box<Formula>, Fail> {
    let not = Box::new(alloc, Formula::Not(place_in(alloc, p, x)?))?;
    Ok(not)
}

#[test]
fn formulas_and_claims(rt: HostRuntime) -> Result<(), Fail> {
    let alloc = rt.alloc();
    let source = source_of(alloc, RULE).ok().ok_or("a rule")?;
    let limit = all_in(alloc, 3, 2, 1, not_in(alloc, 3, 0)?)?;
    let [read] = source.rule.limits.as_slice() else {
        return Err(Fail::from("a limit"));
    };
    assert!(rt; *read == *limit);
    let claims = claims_of(alloc, &source).ok().ok_or("claims")?;
    let [gap, fork] = claims.as_slice() else {
        return Err(Fail::from("two claims"));
    };
    assert!(rt; gap.name == "gap" && gap.put == Put::Never);
    assert!(rt; fork.name == "forks_stay" && fork.put == Put::Claim);
    let kept = all_in(alloc, 5, 2, 1, place_in(alloc, 5, 4)?)?;
    match &fork.question.property {
        Property::Fails(formula) => assert!(rt; **formula == *kept),
        _ => return Err(Fail::from("a formula")),
    }
    Ok(())
}

#[test]
fn a_formula_has_its_place(rt: HostRuntime) -> Result<(), Fail> {
    let text = "bits: tray\nallowed: all1 p: p in trey\n";
    match source_of(rt.alloc(), text) {
        Err(Fault::Formula(message, place)) => {
            assert!(rt;
                message.as_str() == "expected a name that is declared or bound, found `trey`"
            );
            let span = place.ok_or("a place")?;
            assert!(rt; span.start == 33 && span.end == 37);
        }
        _ => return Err(Fail::from("a fault in a formula")),
    }
    Ok(())
}

#[test]
fn a_module_is_never_missing_itself(rt: HostRuntime) -> Result<(), Fail> {
    let text = "bits: tray\nallowed:\n  * | none | *\n";
    match source_of(rt.alloc(), text) {
        Err(Fault::Unfit(span)) => assert!(rt; span.start == 26 && span.end == 30),
        _ => return Err(Fail::from("a pattern that nothing fits")),
    }
    Ok(())
}
