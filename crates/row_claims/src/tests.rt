// Row claims as bytes worked out by hand, bytes that are none, and each refusal.
use crate::claim::row_sets;
use crate::encode::{Refusal, encode};
use crate::reading::{Unread, read_row};
use crate::tree::{RowClaim, and, before, last, multiple, next, not, single, some_set, within};
use kinds::multiple::{Multiple, Remainder};
use std::alloc::{AllocError, Global};
use std::test::Fail;

// What the bytes are read as, written again.
fn again(alloc: Global, bytes: &[u8]) -> Result<Vec<u8>, Fail> {
    let Ok((k, claim)) = read_row(alloc, bytes) else {
        return Err(Fail::from("a row claim"));
    };
    let bytes = encode(alloc, &claim, k as usize).ok().ok_or("bytes")?;
    Ok(bytes)
}

// The opposite of the opposite and so on of `last 0`: two bytes, and one for each opposite.
fn opposites(alloc: Global, times: usize) -> Result<RowClaim, AllocError> {
    let mut claim = last(0);
    for _ in 0..times {
        claim = not(alloc, claim)?;
    }
    Ok(claim)
}

// Some place, as set 1, is the last and is one of set 0.
#[test]
fn the_last_is_one_of_them(rt: HostRuntime) -> Result<(), Fail> {
    let alloc = rt.alloc();
    let place = and(alloc, single(1), last(1))?;
    let claim = some_set(alloc, 1, and(alloc, place, within(1, 0))?)?;
    let bytes = encode(alloc, &claim, 0).ok().ok_or("bytes")?;
    let wanted = [2, 6, 1, 5, 5, 1, 1, 8, 1, 0, 1, 0];
    assert_eq!(rt; bytes.as_slice(), wanted.as_slice());
    assert!(rt; row_sets(&bytes) == Some(2));
    assert_eq!(rt; again(alloc, &bytes)?.as_slice(), wanted.as_slice());
    Ok(())
}

#[test]
fn claims_without_parts(rt: HostRuntime) -> Result<(), Fail> {
    let alloc = rt.alloc();
    let remainder = Remainder {
        modulus: 3,
        rest: 1,
    };
    let counted = multiple(Multiple { remainder, set: 0 });
    let first = and(alloc, next(0, 1), not(alloc, before(1, 2))?)?;
    let claim = and(alloc, first, counted)?;
    let bytes = encode(alloc, &claim, 5).ok().ok_or("bytes")?;
    let wanted = [5, 5, 5, 2, 0, 1, 4, 3, 1, 2, 7, 3, 1, 0];
    assert_eq!(rt; bytes.as_slice(), wanted.as_slice());
    assert!(rt; row_sets(&bytes) == Some(5));
    assert_eq!(rt; again(alloc, &bytes)?.as_slice(), wanted.as_slice());
    Ok(())
}

#[test]
fn too_many_sets(rt: HostRuntime) -> Result<(), Fail> {
    let alloc = rt.alloc();
    let bytes = encode(alloc, &last(11), 0).ok().ok_or("bytes")?;
    assert_eq!(rt; bytes.as_slice(), [12, 8, 11].as_slice());
    assert!(rt; row_sets(&bytes) == Some(12));
    assert!(rt; matches!(encode(alloc, &last(12), 0), Err(Refusal::TooManySets(13))));
    assert!(rt; matches!(encode(alloc, &last(0), 14), Err(Refusal::TooManySets(14))));
    Ok(())
}

#[test]
fn too_many_bytes(rt: HostRuntime) -> Result<(), Fail> {
    let alloc = rt.alloc();
    let mut bytes = encode(alloc, &opposites(alloc, 1021)?, 0)
        .ok()
        .ok_or("bytes")?;
    assert!(rt; bytes.len() == 1024);
    assert!(rt; again(alloc, &bytes)?.len() == 1024);
    assert!(rt;
        matches!(
            encode(alloc, &opposites(alloc, 1022)?, 0),
            Err(Refusal::TooManyBytes(1025))
        )
    );
    bytes.push(0)?;
    assert!(rt; row_sets(&bytes).is_none());
    assert!(rt; matches!(read_row(alloc, &bytes), Err(Unread::NoRowClaim)));
    Ok(())
}

#[test]
fn no_row_claims(rt: HostRuntime) -> Result<(), Fail> {
    let alloc = rt.alloc();
    let none: [&[u8]; 13] = [
        &[],
        &[1],
        // no set, and thirteen
        &[0, 8, 0],
        &[13, 8, 0],
        // no sign, and one without its set
        &[1, 9, 0],
        &[1, 8],
        // a set whose number is too high
        &[1, 8, 1],
        &[2, 6, 2, 8, 0],
        &[2, 0, 0, 2],
        // a byte too many, and a part too few
        &[1, 8, 0, 0],
        &[1, 5, 8, 0],
        // one is nothing to count by
        &[1, 7, 1, 0, 0],
        &[1, 7, 2, 2, 0],
    ];
    for bytes in none {
        assert!(rt; row_sets(bytes).is_none());
        assert!(rt; matches!(read_row(alloc, bytes), Err(Unread::NoRowClaim)));
    }
    Ok(())
}

#[test]
fn refusals_in_words(rt: HostRuntime) -> Result<(), Fail> {
    let alloc = rt.alloc();
    let text = format!(in alloc;
        "{}; {}",
        Refusal::TooManyBytes(1025),
        Refusal::TooManySets(13)
    )?;
    assert_eq!(rt;
        text.as_str(),
        "1025 bytes are needed, and a row claim has at most 1024; 13 sets are needed, and a row claim is about at most 12"
    );
    let none = format!(in alloc; "{}", Unread::NoRowClaim)?;
    assert_eq!(rt; none.as_str(), "the bytes are no row claim");
    Ok(())
}
