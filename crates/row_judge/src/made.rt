// The claims about sets that are made of a row claim.
ghost use Rattle.std.specs.Prelude.{◌≡◌, ℕ, ◌+◌, ◌<◌, ◌≤◌, ◌++◌, length, IfSome, MatchOption, MatchResult};
ghost use Rattle.claims.specs.Rows.{row};
ghost use Rattle.row_claims.specs.Meaning.{RowClaim};
ghost use Rattle.row_claims.specs.Bytes.{row_bytes, SaysRow};
ghost use Rattle.row_claims.specs.Reading as reading;
ghost use Rattle.row_judge.specs.declared.made.Rows.TheVariants.{With, Without};
ghost use Rattle.row_judge.specs.Made.{Asked, NotMade, bytes_of, part_of};

use crate::claim_bytes::ClaimBytes;
use crate::put::{put_in_row, put_is_row};
use row_claims::claim::row_sets;

// A row claim about so many sets at most leaves one of the 12 for the row.
const MOST_SETS: u8 = 11;

/// Of which rows a claim tells: of those of which the row claim holds, or of those of which it does not.
#[derive(Clone, Copy)]
pub enum Rows {
    With,
    Without,
}

/// Why no claim is made: the bytes are no row claim, or the claim would be about more than 12 sets, or take more than 1,024
/// bytes.
#[derive(Clone, Copy)]
pub enum Unmade {
    NoRowClaim,
    TooManySets,
    TooLong,
}

// Set `sets` is the row of a row claim about so many sets, and there are three at least.
fn further_sets(sets: u8) -> u8
    requires { sets ≤ 11 }
    ensures { result ≡ reading.further_sets sets }
{
    (sets + 1).max(3)
}

// The row claim that the bytes say, or its opposite, behind what is there.
fn put_part(out: &mut ClaimBytes, rows: Rows, sets: u8, body: &[u8]) -> Option<()>
    ensures put { (c : RowClaim) → row_bytes c ≡ body.now → MatchOption result (1024 < length out.old + length (row (part_of rows sets c))) (λ _. out.new ≡ out.old ++ row (part_of rows sets c)) }
    ensures few { IfSome result (λ _. length out.new ≤ 1024) }
{
    match rows {
        Rows::With => {
            put_in_row(out, sets, body)?;
        }
        Rows::Without => {
            out.push(&[4])?;
            put_in_row(out, sets, body)?;
        }
    }
    Some(())
}

/// The claim that tells of these rows. `None` where it takes more than 1,024 bytes.
pub fn claim_of(claim: &[u8], sets: u8, rows: Rows) -> Option<ClaimBytes>
    requires { sets ≤ 11 }
    ensures made { (c : RowClaim) → SaysRow claim.now sets c → MatchOption result (1024 < length (bytes_of rows sets c)) (λ made. made ≡ bytes_of rows sets c) }
    ensures few { IfSome result (λ made. length made ≤ 1024) }
{
    let [_, body @ ..] = claim else {
        return None;
    };
    let mut out = ClaimBytes::new();
    out.push(&[further_sets(sets), 5])?;
    put_is_row(&mut out, sets)?;
    put_part(&mut out, rows, sets, body)?;
    Some(out)
}

/// About how many sets the row claim is that the bytes say, and the claim that tells of the rows of which it does not hold, the
/// longer of the two that are made of it.
pub fn claim_without(claim: &[u8]) -> Result<(u8, ClaimBytes), Unmade>
    ensures { MatchResult result (λ p. (c : RowClaim) × Asked claim.now p.0 c × (p.1 ≡ bytes_of Without p.0 c)) (NotMade claim.now) }
{
    let Some(sets) = row_sets(claim) else {
        return Err(Unmade::NoRowClaim);
    };
    if sets > MOST_SETS {
        return Err(Unmade::TooManySets);
    }
    match claim_of(claim, sets, Rows::Without) {
        Some(made) => Ok((sets, made)),
        None => Err(Unmade::TooLong),
    }
}

/// The claim that tells of the rows of which it holds: a byte shorter than the other.
pub fn claim_with(claim: &[u8], sets: u8) -> ClaimBytes
    requires { (c : RowClaim) × Asked claim.now sets c }
    ensures { (c : RowClaim) → Asked claim.now sets c → result ≡ bytes_of With sets c }
{
    match claim_of(claim, sets, Rows::With) {
        Some(made) => made,
        None => unreachable!(),
    }
}
