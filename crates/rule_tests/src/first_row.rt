// Answers worked out by hand, of rules of one bit.
use formulas::formula::{Formula, Group};
use rows::line::{Line, Pattern};
use rows::rule::{Asked, Layout, Literal, NewBit, Side};
use rule_check::first_row::first_row;
use rule_check::verdict::Verdict;
use rules::known::Unsound;
use rules::property::Property;
use rules::question::Question;
use rules::rule::Rule;
use std::alloc::Global;
use std::test::Fail;

const MOST: u32 = 1000;

fn is_set(alloc: Global, side: Side, set: bool) -> Result<Vec<Literal>, Fail> {
    let mut literals = Vec::new(alloc);
    literals.push(Literal {
        side,
        asked: Asked::Bit(0),
        set,
    })?;
    Ok(literals)
}

// Each row is allowed whose modules are all unset but the last, and of which the limits hold. A module takes its left neighbour's bit.
fn shifting(alloc: Global, limits: Vec<Formula>) -> Result<Rule, Fail> {
    let mut allowed = Vec::new(alloc);
    allowed.push(Pattern::new(is_set(alloc, Side::Left, false)?))?;
    let mut bits = Vec::new(alloc);
    bits.push(NewBit::AsWas(Side::Left, 0))?;
    let mut table = Vec::new(alloc);
    table.push(Line::new(Vec::new(alloc), bits, true))?;
    match Rule::new(alloc, 1, Layout::Line, allowed, limits, table) {
        Ok(rule) => Ok(rule),
        Err(_) => Err(Fail::from("a rule")),
    }
}

// What is answered of a property of the rule's rows.
fn answer(alloc: Global, rule: &Rule, property: Property, most: u32) -> Result<Verdict, Fail> {
    let question = Question::new(alloc, rule, property)
        .ok()
        .ok_or("a property of the rule")?;
    Ok(first_row(alloc, &question, most)?)
}

fn row_of(verdict: Verdict) -> Option<Vec<u32>> {
    match verdict {
        Verdict::First(row) => Some(row),
        _ => None,
    }
}

#[test]
fn first_rows(rt: HostRuntime) -> Result<(), Fail> {
    let alloc = rt.alloc();
    let rule = shifting(alloc, Vec::new(alloc))?;
    let allowed = row_of(answer(alloc, &rule, Property::Allowed, MOST)?).ok_or("a row")?;
    assert_eq!(rt; allowed.as_slice(), [0].as_slice());
    let stuck = answer(alloc, &rule, Property::Stuck, MOST)?;
    assert!(rt; matches!(stuck, Verdict::Never));
    let left = answer(alloc, &rule, Property::Left, MOST)?;
    assert!(rt; matches!(left, Verdict::Never));
    let large = answer(alloc, &rule, Property::Left, 1)?;
    assert!(rt; matches!(large, Verdict::TooLarge(1)));
    Ok(())
}

#[test]
fn no_such_bit(rt: HostRuntime) -> Result<(), Fail> {
    let alloc = rt.alloc();
    let mut allowed = Vec::new(alloc);
    allowed.push(Pattern::new(is_set(alloc, Side::Own, true)?))?;
    let rule = Rule::new(
        alloc,
        0,
        Layout::Line,
        allowed,
        Vec::new(alloc),
        Vec::new(alloc),
    );
    assert!(rt; matches!(rule, Err(Unsound::Bits)));
    Ok(())
}

// Of rows of one bit: 0 is the places whose module has it, 1 the row, 2 the places whose module has it after one step.
fn within(x: u32, y: u32) -> Formula {
    Formula::Sub(Group::Named(x), Group::Named(y))
}

// What is answered of the rows of which it does not hold that set x is within set y.
fn not_within(alloc: Global, rule: &Rule, x: u32, y: u32) -> Result<Verdict, Fail> {
    let formula = Box::new(alloc, within(x, y))?;
    answer(alloc, rule, Property::Fails(formula), MOST)
}

fn has_sets(alloc: Global, rule: &Rule, x: u32, y: u32) -> Result<bool, Fail> {
    let formula = Box::new(alloc, within(x, y))?;
    Ok(rule.has_names_of(alloc, &formula)?)
}

#[test]
fn formula_fails(rt: HostRuntime) -> Result<(), Fail> {
    let alloc = rt.alloc();
    let rule = shifting(alloc, Vec::new(alloc))?;
    let row = row_of(not_within(alloc, &rule, 0, 2)?).ok_or("a row")?;
    assert_eq!(rt; row.as_slice(), [1].as_slice());
    let never = not_within(alloc, &rule, 2, 0)?;
    assert!(rt; matches!(never, Verdict::Never));
    assert!(rt; has_sets(alloc, &rule, 0, 2)?);
    assert!(rt; !has_sets(alloc, &rule, 0, 3)?);
    Ok(())
}

// Some module has the bit.
fn bit_somewhere(alloc: Global) -> Result<Vec<Formula>, Fail> {
    let nowhere = Box::new(alloc, Formula::Sub(Group::Named(0), Group::Empty))?;
    let mut limits = Vec::new(alloc);
    limits.push(Formula::Not(nowhere))?;
    Ok(limits)
}

#[test]
fn limits_hold(rt: HostRuntime) -> Result<(), Fail> {
    let alloc = rt.alloc();
    let rule = shifting(alloc, bit_somewhere(alloc)?)?;
    let allowed = row_of(answer(alloc, &rule, Property::Allowed, MOST)?).ok_or("a row")?;
    assert_eq!(rt; allowed.as_slice(), [1].as_slice());
    let left = row_of(answer(alloc, &rule, Property::Left, MOST)?).ok_or("a row")?;
    assert_eq!(rt; left.as_slice(), [1].as_slice());
    Ok(())
}

#[test]
fn limit_of_no_set(rt: HostRuntime) -> Result<(), Fail> {
    let alloc = rt.alloc();
    let mut limits = Vec::new(alloc);
    limits.push(within(0, 2))?;
    let rule = Rule::new(
        alloc,
        1,
        Layout::Line,
        Vec::new(alloc),
        limits,
        Vec::new(alloc),
    );
    assert!(rt; matches!(rule, Err(Unsound::UnknownName)));
    Ok(())
}
