// A row claim's bytes written as a claim about sets, one of which is the row: sign by sign, as they are read.
ghost use Rattle.std.specs.Prelude.{◌≡◌, ℕ, ◌+◌, ◌<◌, ◌++◌, length, MatchOption};
ghost use Rattle.claims.specs.Rows.{row};
ghost use Rattle.rows.specs.RowClaims.{whole, is_row};
ghost use Rattle.row_claims.specs.Meaning.{RowClaim};
ghost use Rattle.row_claims.specs.Reading.{besides as other, last_of};
ghost use Rattle.row_judge.specs.Put.{Overlong, Puts};

use crate::claim_bytes::ClaimBytes;
use row_claims::sign::{RowSign, read_sign};

// Sets below `below` are within the set `of_row`, which has no hole; `other` is a set that is neither 0 nor that one.
fn put_whole(out: &mut ClaimBytes, below: u8, of_row: u8, other: u8) -> Option<()>
    ensures { MatchOption result (1024 < length out.old + length (row (whole below of_row other))) (λ _. out.new ≡ out.old ++ row (whole below of_row other)) }
{
    if below == 0 {
        let (r, z) = (of_row, other);
        return out.push(&[4, 6, 0, 6, z, 5, 2, 0, z, 5, 0, z, r, 4, 0, 0, r]);
    }
    out.push(&[5, 0, below - 1, of_row])?;
    put_whole(out, below - 1, of_row, other)
}

/// Sets 0 to `bits` - 1 and set `bits` are a row. `None` where there is no room for it.
pub fn put_is_row(out: &mut ClaimBytes, bits: u8) -> Option<()>
    ensures { MatchOption result (1024 < length out.old + length (row (is_row bits))) (λ _. out.new ≡ out.old ++ row (is_row bits)) }
{
    let other = if bits == 1 { 2 } else { 1 };
    put_whole(out, bits, bits, other)
}

// A set's number that is neither x nor the row's, which is not 0.
fn besides(x: u8, of_row: u8) -> u8
    ensures { result ≡ other x of_row }
{
    if x > 0 {
        0
    } else if of_row == 1 {
        2
    } else {
        1
    }
}

// Set x has the last place of the row alone, or none where the row is empty.
fn last(x: u8, of_row: u8) -> [u8; 25]
    ensures { result ≡ row (last_of of_row x (other x of_row)) }
{
    let (r, y) = (of_row, besides(x, of_row));
    [
        5, 0, x, r, 4, 5, 6, y, 5, 1, y, 0, y, r, 4, 6, y, 5, 2, x, y, 4, 0, y, r,
    ]
}

/// The row claim that the bytes begin with, where set `of_row` is the row, and the bytes behind it. `None` where there is no
/// room for it, or the bytes begin with no row claim.
pub fn put_in_row<'a>(out: &mut ClaimBytes, of_row: u8, bytes: &'a [u8]) -> Option<&'a [u8]>
    ensures { MatchOption result (Overlong of_row (length out.old) bytes.now) (λ rest. (c : RowClaim) × Puts of_row c out.old out.new bytes.now rest.now) }
{
    let (sign, rest) = read_sign(bytes)?;
    match sign {
        RowSign::Atom(atom) => {
            out.push(&bytes[..atom.length()])?;
            Some(rest)
        }
        RowSign::Last(x) => {
            out.push(&last(x, of_row))?;
            Some(rest)
        }
        RowSign::Not => {
            out.push(&[4])?;
            put_in_row(out, of_row, rest)
        }
        RowSign::And => {
            out.push(&[5])?;
            let more = put_in_row(out, of_row, rest)?;
            put_in_row(out, of_row, more)
        }
        RowSign::Some(x) => {
            out.push(&[6, x, 5, 0, x, of_row])?;
            put_in_row(out, of_row, rest)
        }
    }
}
