// What is proved of the kinds that ship, as the contracts of functions.
ghost use Rattle.std.specs.Prelude.{◌≡◌};
ghost use Rattle.buses.specs.Bus.{bus};
ghost use Rattle.kinds.specs.Laws.{Laws};
ghost use Rattle.resources.specs.Core.{core};
ghost use Rattle.resources.specs.Figures.{ResourceFigures};
ghost use Rattle.resources.specs.Link.{link};

use crate::cores::Core;
use crate::links::Link;
use buses::Bus;
use kinds::Kind;

// The relations of core, link and bus are those of their definitions, and these keep the laws.
pub fn shipped_kinds_are_lawful()
    ensures core { (⟦<Core as Kind>⟧.relations (record {}) ≡ core) × Laws core }
    ensures link { (⟦<Link as Kind>⟧.relations (record {}) ≡ link) × Laws link }
    ensures bus { (⟦<Bus as Kind>⟧.relations (record {}) ≡ bus) × Laws bus }
{}

// Worked figures of links and buses, from the definitions.
pub fn resource_figures_hold()
    ensures { ResourceFigures }
{}
