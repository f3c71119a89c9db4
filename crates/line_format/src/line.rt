// What stands on a line: `most hexbytes`, or `most hexbytes outwords`, with one space between them. `-` stands for no bytes.
ghost use Rattle.std.specs.Prelude.{◌≡◌, ℕ, ◌^◌, ◌<◌, ◌⊎◌, List, ◌∷◌, ◌++◌, MatchOption, MatchResult};
ghost use Rattle.line_format.specs.Line.{NoSpace, Two, Three, Number, Digit, Pair, Field};
ghost use Rattle.line_format.specs.declared.fault.Fault.TheVariants.{Memory};

use crate::fault::Fault;
use std::alloc::Global;

// The text before the first space, and the text behind that, if there is a space.
fn split_field(text: &[u8]) -> (&[u8], Option<&[u8]>)
    ensures field { NoSpace result.0.now }
    ensures rest { MatchOption result.1 (result.0.now ≡ text.now) (λ rest. result.0.now ++ (32 ∷ rest.now) ≡ text.now) }
{
    match text.iter().position(|b| *b == b' ') {
        Some(end) => (&text[..end], Some(&text[end + 1..])),
        None => (text, None),
    }
}

// The two or three fields of a line, the second of them not empty.
#[derive(Drop)]
pub struct Fields<'a> {
    pub most: &'a [u8],
    pub bytes: &'a [u8],
    pub out: Option<&'a [u8]>,
}

pub fn read_fields(line: &[u8]) -> Result<Fields<'_>, Fault<'_>>
    ensures { MatchResult result (λ p. MatchOption p.out (Two line.now p.most.now p.bytes.now) (λ o. Three line.now p.most.now p.bytes.now o.now)) (λ _. ((m b : List ℕ) → Two line.now m b → ⊥) × ((m b o : List ℕ) → Three line.now m b o → ⊥)) }
{
    if line.is_empty() {
        return Err(Fault::Empty);
    }
    let (most, behind) = split_field(line);
    let Some(rest) = behind else {
        return Err(Fault::OneField(line));
    };
    let (bytes, more) = split_field(rest);
    if bytes.is_empty() {
        return Err(Fault::OneField(most));
    }
    let Some(third) = more else {
        return Ok(Fields {
            most,
            bytes,
            out: None,
        });
    };
    match split_field(third) {
        (out, None) => Ok(Fields {
            most,
            bytes,
            out: Some(out),
        }),
        (_, Some(fourth)) => Err(Fault::FourthField(fourth)),
    }
}

// The number that decimal digits write, if it is below 2^32.
pub fn read_number(digits: &[u8]) -> Option<u32>
    ensures { MatchOption result ((n : ℕ) → n < 2 ^ 32 → Number digits.now n → ⊥) (λ n. Number digits.now n) }
{
    if digits.is_empty() {
        return None;
    }
    let mut n = 0u64;
    let mut rest = digits;
    while let [d, more @ ..] = rest {
        if *d < b'0' || *d > b'9' {
            return None;
        }
        n = n * 10 + u64::from(*d - b'0');
        if n > 4294967295 {
            return None;
        }
        rest = more;
    }
    Some(n as u32)
}

// The value of a hex digit.
fn hex_digit(b: u8) -> Option<u8>
    ensures { MatchOption result ((v : ℕ) → Digit b v → ⊥) (λ v. Digit b v) }
{
    match b {
        b'0'..=b'9' => Some(b - b'0'),
        b'a'..=b'f' => Some(b - b'a' + 10),
        b'A'..=b'F' => Some(b - b'A' + 10),
        _ => None,
    }
}

// The byte that two hex digits write.
pub fn hex_pair(a: u8, b: u8) -> Option<u8>
    ensures { MatchOption result ((v : ℕ) → Pair a b v → ⊥) (λ v. Pair a b v) }
{
    let high = hex_digit(a)?;
    let low = hex_digit(b)?;
    Some(high * 16 + low)
}

// The bytes that a field of hex digits writes.
pub fn read_bytes(heap: Global, field: &[u8]) -> Result<Vec<u8>, Fault<'_>>
    ensures { MatchResult result (λ v. Field field.now v.items) (λ e. (e ≡ Memory) ⊎ ((t : List ℕ) → Field field.now t → ⊥)) }
{
    let mut bytes = Vec::new(heap);
    if field.len() == 1 && field[0] == b'-' {
        return Ok(bytes);
    }
    if field.len() % 2 == 1 {
        return Err(Fault::OddDigits(field.len()));
    }
    let mut rest = field;
    while let [a, b, more @ ..] = rest {
        let Some(byte) = hex_pair(*a, *b) else {
            return Err(Fault::NoPair(*a, *b));
        };
        if bytes.push(byte).is_err() {
            return Err(Fault::Memory);
        }
        rest = more;
    }
    Ok(bytes)
}
