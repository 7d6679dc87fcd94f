// openings: opens one plan after the other. Each line of standard input is a plan file in hexadecimal.
#![tactic(auto)]

mod hex;

use hex::bytes_of;
use plan::{Plan, opening_line};
use resources::{Standard, standard_kinds};
use std::io::{BufRead, BufReader};

fn main(rt: HostRuntime) -> anyhow::Result<()> {
    let mut plan = Plan::new(rt.alloc(), standard_kinds())?;
    let mut input = BufReader::new(rt.alloc(), rt.stdin())?;
    let mut line = Vec::new(rt.alloc());
    // Kept: one buffer for all lines; `split` makes a new one for each, and long lines then take up to 1.7 times the memory.
    for number in 1..u64::MAX {
        line.clear();
        if input.read_until(b'\n', &mut line)? == 0 {
            break;
        }
        open_line(&rt, &mut plan, number, line.as_slice())?;
    }
    Ok(())
}

fn open_line(
    rt: &HostRuntime,
    plan: &mut Plan<Standard>,
    number: u64,
    line: &[u8],
) -> anyhow::Result<()> {
    let Some(file) = bytes_of(rt.alloc(), line)? else {
        println!(rt; "line {number}: not hexadecimal")?;
        return Ok(());
    };
    let answer = plan.open(file.as_slice());
    if plan.is_empty() == answer.is_ok() {
        println!(rt; "line {number}: a plan is empty exactly when it was refused")?;
    }
    rt.print(opening_line(rt.alloc(), answer, plan.counts())?)?;
    Ok(())
}
