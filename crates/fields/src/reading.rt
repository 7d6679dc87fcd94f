// Reading fields.
// Kept: input and place are two arguments, as in `get`; three functions take them, and a struct would save none of them a line.
ghost use Rattle.std.specs.Prelude.{◌≡◌, ◌+◌, ◌<◌, ◌≤◌, length, drop, slice_index, MatchResult};
ghost use Rattle.fields.specs.declared.record.FieldFault.TheVariants.{Short};
ghost use Rattle.fields.specs.Bytes.{two_at};
ghost use Rattle.fields.specs.Fields.{reading, tag_of};

use crate::record::{FieldFault, Record};

// What the three bytes of a header say, and what follows them.
#[derive(Clone, Copy)]
struct Header<'a> {
    tag: u8,
    len: u16,
    rest: &'a [u8],
}

// The header of the field that begins at `at`; short where it passes the end.
#[inline]
fn header_at(input: &[u8], at: usize) -> Result<Header<'_>, FieldFault>
    ensures { MatchResult result (λ h. (at + 3 ≤ length input.now) × (h.tag ≡ slice_index input.now at) × (h.len ≡ two_at input.now (at + 1)) × (h.rest.now ≡ drop (at + 3) input.now)) (λ e. (length input.now < at + 3) × (e ≡ Short)) }
{
    match input.get(at..) {
        Some([tag, high, low, rest @ ..]) => Ok(Header {
            tag: *tag,
            len: u16::from_be_bytes([*high, *low]),
            rest,
        }),
        _ => Err(FieldFault::Short),
    }
}

// The tag of the field that begins at `at`; short where its header passes the end.
pub fn tag_at(input: &[u8], at: usize) -> Result<u8, FieldFault>
    ensures { result ≡ tag_of input.now at }
{
    Ok(header_at(input, at)?.tag)
}

// The record of the field that begins at `at`. The faults are tested in this order: the header is there, the tag, the length,
// the body is there.
pub fn read_field<R: Record>(input: &[u8], at: usize) -> Result<R, FieldFault>
    ensures { result ≡ reading R.TAG R.LEN R.parse input.now at }
{
    let header = header_at(input, at)?;
    if header.tag != R::TAG {
        return Err(FieldFault::Tag);
    }
    if header.len != R::LEN {
        return Err(FieldFault::Length);
    }
    let body = header
        .rest
        .get(..usize::from(R::LEN))
        .ok_or(FieldFault::Short)?;
    Ok(R::read(body))
}
