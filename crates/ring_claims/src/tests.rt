// Ring claims as bytes worked out by hand, bytes that are none, each refusal, and row claims as which ring claims are read.
use crate::claim::ring_sets;
use crate::encode::{Refusal, encode};
use crate::reading::{Unread, read_ring};
use crate::row::in_ring;
use crate::tree::{RingClaim, and, multiple, next, not, single, some_set, within};
use kinds::multiple::{Multiple, Remainder};
use row_claims::encode as rows_encode;
use std::alloc::{AllocError, Global};
use std::test::Fail;

// What the bytes are read as, written again.
fn again(alloc: Global, bytes: &[u8]) -> Result<Vec<u8>, Fail> {
    let Ok((k, claim)) = read_ring(alloc, bytes) else {
        return Err(Fail::from("a ring claim"));
    };
    let bytes = encode(alloc, &claim, k as usize).ok().ok_or("bytes")?;
    Ok(bytes)
}

// The opposite of the opposite and so on of `single 0`: two bytes, and one for each opposite.
fn opposites(alloc: Global, times: usize) -> Result<RingClaim, AllocError> {
    let mut claim = single(0);
    for _ in 0..times {
        claim = not(alloc, claim)?;
    }
    Ok(claim)
}

#[test]
fn every_sign(rt: HostRuntime) -> Result<(), Fail> {
    let alloc = rt.alloc();
    let remainder = Remainder {
        modulus: 3,
        rest: 1,
    };
    let counted = multiple(Multiple { remainder, set: 0 });
    let first = and(alloc, next(0, 1), not(alloc, within(1, 2))?)?;
    let some = some_set(alloc, 2, and(alloc, single(2), counted)?)?;
    let claim = and(alloc, first, some)?;
    let bytes = encode(alloc, &claim, 5).ok().ok_or("bytes")?;
    let wanted = [5, 5, 5, 2, 0, 1, 4, 0, 1, 2, 6, 2, 5, 1, 2, 7, 3, 1, 0];
    assert_eq!(rt; bytes.as_slice(), wanted.as_slice());
    assert!(rt; ring_sets(&bytes) == Some(5));
    assert_eq!(rt; again(alloc, &bytes)?.as_slice(), wanted.as_slice());
    Ok(())
}

// Next of two sets, and of one.
#[test]
fn read_as_row_claims(rt: HostRuntime) -> Result<(), Fail> {
    let alloc = rt.alloc();
    let row = in_ring(alloc, &next(0, 1))?;
    let bytes = rows_encode::encode(alloc, &row, 0).ok().ok_or("bytes")?;
    let wanted = [
        2, 5, 1, 0, 5, 1, 1, 4, 5, 4, 2, 0, 1, 4, 5, 4, 6, 1, 2, 0, 1, 4, 6, 0, 2, 0, 1,
    ];
    assert_eq!(rt; bytes.as_slice(), wanted.as_slice());
    let row = in_ring(alloc, &some_set(alloc, 1, next(1, 1))?)?;
    let bytes = rows_encode::encode(alloc, &row, 0).ok().ok_or("bytes")?;
    let wanted = [2, 6, 1, 5, 1, 1, 4, 6, 1, 5, 1, 1, 4, 8, 1];
    assert_eq!(rt; bytes.as_slice(), wanted.as_slice());
    Ok(())
}

#[test]
fn too_many_sets(rt: HostRuntime) -> Result<(), Fail> {
    let alloc = rt.alloc();
    let bytes = encode(alloc, &single(11), 0).ok().ok_or("bytes")?;
    assert_eq!(rt; bytes.as_slice(), [12, 1, 11].as_slice());
    assert!(rt; ring_sets(&bytes) == Some(12));
    assert!(rt; matches!(encode(alloc, &single(12), 0), Err(Refusal::TooManySets(13))));
    assert!(rt; matches!(encode(alloc, &single(0), 14), Err(Refusal::TooManySets(14))));
    Ok(())
}

#[test]
fn too_many_bytes(rt: HostRuntime) -> Result<(), Fail> {
    let alloc = rt.alloc();
    let mut bytes = encode(alloc, &opposites(alloc, 1021)?, 0)
        .ok()
        .ok_or("bytes")?;
    assert!(rt; bytes.len() == 1024);
    assert!(rt; again(alloc, &bytes)?.len() == 1024);
    assert!(rt;
        matches!(
            encode(alloc, &opposites(alloc, 1022)?, 0),
            Err(Refusal::TooManyBytes(1025))
        )
    );
    bytes.push(0)?;
    assert!(rt; ring_sets(&bytes).is_none());
    assert!(rt; matches!(read_ring(alloc, &bytes), Err(Unread::NoRingClaim)));
    Ok(())
}

#[test]
fn no_ring_claims(rt: HostRuntime) -> Result<(), Fail> {
    let alloc = rt.alloc();
    let none: [&[u8]; 15] = [
        &[],
        &[1],
        // no set, and thirteen
        &[0, 1, 0],
        &[13, 1, 0],
        // before and last, alone and as a part
        &[2, 3, 0, 1],
        &[1, 8, 0],
        &[2, 5, 1, 0, 4, 3, 0, 1],
        &[1, 6, 0, 8, 0],
        // no sign, and one without its set
        &[1, 9, 0],
        &[1, 1],
        // a set whose number is too high
        &[1, 1, 1],
        &[2, 6, 2, 1, 0],
        // a byte too many, and a part too few
        &[1, 1, 0, 0],
        &[1, 5, 1, 0],
        // one is nothing to count by
        &[1, 7, 1, 0, 0],
    ];
    for bytes in none {
        assert!(rt; ring_sets(bytes).is_none());
        assert!(rt; matches!(read_ring(alloc, bytes), Err(Unread::NoRingClaim)));
    }
    Ok(())
}

#[test]
fn refusals_in_words(rt: HostRuntime) -> Result<(), Fail> {
    let alloc = rt.alloc();
    let text = format!(in alloc;
        "{}; {}",
        Refusal::TooManyBytes(1025),
        Refusal::TooManySets(13)
    )?;
    assert_eq!(rt;
        text.as_str(),
        "1025 bytes are needed, and a ring claim has at most 1024; 13 sets are needed, and a ring claim is about at most 12"
    );
    let none = format!(in alloc; "{}", Unread::NoRingClaim)?;
    assert_eq!(rt; none.as_str(), "the bytes are no ring claim");
    Ok(())
}
