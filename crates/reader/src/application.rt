// An application, complete with its cost table.
ghost use Rattle.std.specs.Prelude.{◌≡◌, ◌≤◌, true};
ghost use Rattle.costs.specs.Costs.{last_latency};
ghost use Rattle.costs.specs.Tables.{table_points};
ghost use Rattle.description.specs.Limits.{timing_right};

use costs::CostTable;

// The cost table reaches to the latency bound.
#[derive(Clone, Copy)]
pub struct Application {
    pub period: u32,
    pub bound: u32,
    pub costs: CostTable,
    ghost timed: { timing_right period bound ≡ true },
    ghost reaches: { bound ≤ last_latency (table_points costs) },
}
