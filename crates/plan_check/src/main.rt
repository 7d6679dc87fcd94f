// check: is plan.bin, in the folder where it is started, a plan?
#![tactic(auto)]

use anyhow::anyhow;
use plan::{Plan, opening_line};
use resources::standard_kinds;
use std::{env, fs};

const USAGE: &str = "usage: check

Reads plan.bin in the folder where it is started, and prints one line:

OK RESOURCES APPLICATIONS ACTIVITIES CELLS EDGES
  the file is a plan, with so many parts of each
NO NUMBER PLACE ACTIVITY TURN ACTIVITY TURN OCCURRENCE OCCURRENCE
  it is refused; PLACE is the byte of the field at fault

docs/REFUSALS.md says what each number means.
";

fn main(rt: HostRuntime) -> anyhow::Result<()> {
    if env::args(&rt)?.count() > 1 {
        print!(rt; "{USAGE}")?;
        return Ok(());
    }
    let file = match fs::read(&rt, "plan.bin") {
        Ok(file) => file,
        Err(e) => {
            eprintln!(rt; "check: plan.bin cannot be read: {e}")?;
            return Err(anyhow!("no plan"));
        }
    };
    let mut plan = Plan::new(rt.alloc(), standard_kinds())?;
    let answer = plan.open(file.as_slice());
    rt.print(opening_line(rt.alloc(), answer, plan.counts())?)?;
    Ok(())
}
