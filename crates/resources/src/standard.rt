// The kinds that ship.
ghost use Rattle.std.specs.Prelude.{◌≡◌};

use crate::cores::Core;
use crate::links::Link;
use buses::Bus;
use kinds::Beside;

// Core beside link beside bus.
pub type Standard = Beside<Core, Beside<Link, Bus>>;

pub fn standard_kinds() -> Standard
    ensures { result ≡ record { first = record {}; second = record { first = record {}; second = record {} } } }
{
    Beside::new(Core, Beside::new(Link, Bus))
}
