// The refusal of a field with a fault.
ghost use Rattle.std.specs.Prelude.{◌≡◌};
ghost use Rattle.description.specs.Forms.{fault_refusal};

use fields::FieldFault;
use model::Refusal;

// Kept: no `From`: a fault alone has no place, and of a pair neither type is this crate's.
pub fn refuse_fault(fault: FieldFault, place: u64) -> Refusal
    ensures { result ≡ fault_refusal fault place }
{
    match fault {
        FieldFault::Short => Refusal::EndsEarly(place),
        FieldFault::Tag => Refusal::WrongTag(place),
        FieldFault::Length => Refusal::WrongLength(place),
    }
}
