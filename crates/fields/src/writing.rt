// Writing fields.
ghost use Rattle.std.specs.Prelude.{◌≡◌, ◌+◌, ◌≤◌, true, length, is_ok, if◌then◌else◌, Ok, Err, nat_lt};
ghost use Rattle.fields.specs.declared.record.FieldFault.TheVariants.{Short};
ghost use Rattle.fields.specs.Fields.{field_of, placed, reading};

use crate::record::{FieldFault, HEADER_LEN, Record};

// Writes the field of `item` at `at`, and answers where it ends. Short, and the output is as it was, where it does not fit. What
// was written is read back as it was.
pub fn write_field<R: Record>(item: &R, output: &mut [u8], at: usize) -> Result<usize, FieldFault>
    ensures answer { result ≡ (if nat_lt (length output.old) (at + 3 + R.LEN) then Err Short else Ok (at + 3 + R.LEN)) }
    ensures after { output.new ≡ (if nat_lt (length output.old) (at + 3 + R.LEN) then output.old else placed output.old at (field_of R.TAG R.LEN (R.bytes item.now))) }
    ensures back { is_ok result ≡ true → reading R.TAG R.LEN R.parse output.new at ≡ Ok item.now }
{
    let size = HEADER_LEN + usize::from(R::LEN);
    let end = at
        .checked_add(size)
        .filter(|&end| end <= output.len())
        .ok_or(FieldFault::Short)?;
    place_field(item, output, at, end);
    Ok(end)
}

fn place_field<R: Record>(item: &R, output: &mut [u8], at: usize, end: usize)
    requires size { end ≡ at + 3 + R.LEN }
    requires fits { end ≤ length output.old }
    ensures after { output.new ≡ placed output.old at (field_of R.TAG R.LEN (R.bytes item.now)) }
    ensures back { reading R.TAG R.LEN R.parse output.new at ≡ Ok item.now }
{
    let [high, low] = R::LEN.to_be_bytes();
    let field = &mut output[at..end];
    field[..HEADER_LEN].copy_from_slice(&[R::TAG, high, low]);
    item.write(&mut field[HEADER_LEN..]);
}
