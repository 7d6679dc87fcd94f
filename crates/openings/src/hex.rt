// Bytes from hexadecimal digits.
ghost use Rattle.std.specs.Prelude.{◌≡◌, ℕ, ◌<◌, List, IfOk, IfSome, MatchOption};
ghost use Rattle.openings.specs.Hex.{digit_of, Spells};

use std::alloc::{AllocError, Global};

// What a character is worth as a digit.
// Kept: `char::to_digit` is no plainer here; it wants a `char` and answers a `u32` that would have to be narrowed again.
fn digit(c: u8) -> Option<u8>
    ensures value { result ≡ digit_of c }
    ensures bound { IfSome result (λ d. d < 16) }
{
    match c {
        b'0'..=b'9' => Some(c - b'0'),
        b'a'..=b'f' => Some(c - b'a' + 10),
        b'A'..=b'F' => Some(c - b'A' + 10),
        _ => None,
    }
}

// The bytes that a line spells, two digits each; blanks and the line's end are passed over. None where it spells none: something
// else stands there, or a digit is left over.
pub fn bytes_of(heap: Global, line: &[u8]) -> Result<Option<Vec<u8>>, AllocError>
    ensures { IfOk result (λ bytes. MatchOption bytes ((b : List ℕ) → ¬ Spells line.now b) (λ v. Spells line.now v.items)) }
{
    let mut bytes = Vec::new(heap);
    let mut high: Option<u8> = None;
    for c in line {
        if *c == b' ' || *c == b'\n' || *c == b'\r' {
            continue;
        }
        let Some(low) = digit(*c) else {
            return Ok(None);
        };
        match high {
            None => high = Some(low),
            Some(first) => {
                bytes.push(first * 16 + low)?;
                high = None;
            }
        }
    }
    if high.is_some() {
        return Ok(None);
    }
    Ok(Some(bytes))
}
