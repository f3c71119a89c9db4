// Counting the places of a set: claims worked out by hand from the meaning of the bytes.
use formula_claims::claimed::claim_bytes;
use formulas::formula::{Formula, Group};
use formulas::name::Name;
use kinds::multiple::Remainder;
use std::alloc::{AllocError, Global};
use std::test::Fail;

// The set of the places that sets x and y share.
fn shared(alloc: Global, x: u32, y: u32) -> Result<Group, AllocError> {
    let first = Box::new(alloc, Group::Named(x))?;
    let second = Box::new(alloc, Group::Named(y))?;
    Ok(Group::Inter(first, second))
}

// Of a named set it is said of the set itself: a multiple of three places, and one besides.
#[test]
fn places_of_a_name(rt: HostRuntime) -> Result<(), Fail> {
    let alloc = rt.alloc();
    let remainder = Remainder {
        modulus: 3,
        rest: 1,
    };
    let formula = Formula::Count(Group::Named(5), remainder);
    let bytes = claim_bytes(alloc, &formula, &[Name::OfGroup(4), Name::OfGroup(5)])?;
    assert_eq!(rt; bytes.as_slice(), [2, 7, 3, 1, 1].as_slice());
    Ok(())
}

#[test]
fn places_of_a_name_not(rt: HostRuntime) -> Result<(), Fail> {
    let alloc = rt.alloc();
    let remainder = Remainder {
        modulus: 2,
        rest: 0,
    };
    let count = Box::new(alloc, Formula::Count(Group::Named(0), remainder))?;
    let bytes = claim_bytes(alloc, &Formula::Not(count), &[Name::OfGroup(0)])?;
    assert_eq!(rt; bytes.as_slice(), [1, 4, 7, 2, 0, 0].as_slice());
    Ok(())
}

// Of what two sets share: there is a set 2 within both, no place 3 that is in both is outside of it, and its places are a multiple of five and two besides.
#[test]
fn places_of_two(rt: HostRuntime) -> Result<(), Fail> {
    let alloc = rt.alloc();
    let remainder = Remainder {
        modulus: 5,
        rest: 2,
    };
    let formula = Formula::Count(shared(alloc, 0, 1)?, remainder);
    let bytes = claim_bytes(alloc, &formula, &[Name::OfGroup(0), Name::OfGroup(1)])?;
    let within_both = [5, 0, 2, 0, 0, 2, 1];
    let in_both = [5, 5, 1, 3, 0, 3, 0, 5, 1, 3, 0, 3, 1];
    let in_two = [5, 1, 3, 0, 3, 2];
    let mut expected = Vec::new(alloc);
    expected.extend_from_slice(&[4, 6, 2, 5, 5])?;
    expected.extend_from_slice(&within_both)?;
    expected.extend_from_slice(&[4, 6, 3, 5])?;
    expected.extend_from_slice(&in_both)?;
    expected.push(4)?;
    expected.extend_from_slice(&in_two)?;
    expected.extend_from_slice(&[7, 5, 2, 2])?;
    assert_eq!(rt; bytes.as_slice(), expected.as_slice());
    Ok(())
}
