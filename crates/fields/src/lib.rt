// Tagged fields: a tag byte, a length in two bytes, and a body. One trait, one reader and one writer for all kinds of field.
#![tactic(auto)]

mod reading;
mod record;
mod writing;

pub use reading::{read_field, tag_at};
pub use record::{FieldFault, HEADER_LEN, Record};
pub use writing::write_field;
