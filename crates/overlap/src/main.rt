// overlap: do two endless repeating entries of a timing table ever overlap?
#![tactic(auto)]

mod answer;
mod fault;
mod pair;
mod reply;

use anyhow::anyhow;
use reply::reply;
use std::env;
use std::io::{BufRead, BufReader};

const USAGE: &str = "usage: overlap START REPEAT SPAN START REPEAT SPAN
       overlap < PAIRS

Says whether two entries of a timing table ever overlap. An entry begins at START, again
after each REPEAT without end, and each time lasts for SPAN. All are whole microseconds:
START 0 to 100000000, REPEAT 1 to 64000000, SPAN 1 to 1000000.

Without arguments it reads one pair of entries from each line of standard input: six
numbers with blanks between them. Empty lines are passed over.

For each pair it prints 'never', or two occurrences that overlap, counted from 0:
'occurrence I begins at S, occurrence J at T'. For a line that it cannot read it prints
which one, and what is wrong.
";

fn main(rt: HostRuntime) -> anyhow::Result<()> {
    let mut words = env::args(&rt)?.skip(1);
    let Some(first) = words.next() else {
        return answer_lines(&rt);
    };
    if first.as_str() == "-h" || first.as_str() == "--help" {
        print!(rt; "{USAGE}")?;
        return Ok(());
    }
    let mut text = first;
    for word in words {
        text.push(' ')?;
        text.push_str(word.as_str())?;
    }
    answer_arguments(&rt, text.as_str())
}

// The pair that the arguments give; what is wrong with them goes to standard error, with the usage.
fn answer_arguments(rt: &HostRuntime, text: &str) -> anyhow::Result<()> {
    match reply(text) {
        Ok(answer) => rt.println(answer)?,
        Err(fault) => {
            eprint!(rt; "overlap: {fault}\n\n{USAGE}")?;
            return Err(anyhow!("the arguments are no pair of entries"));
        }
    }
    Ok(())
}

// A pair from each line of standard input.
// Kept: one buffer for all lines; `split` makes a new one for each, and blank lines then take 1.6 times as long.
fn answer_lines(rt: &HostRuntime) -> anyhow::Result<()> {
    let mut input = BufReader::new(rt.alloc(), rt.stdin())?;
    let mut line = Vec::new(rt.alloc());
    for number in 1..u64::MAX {
        line.clear();
        if input.read_until(b'\n', &mut line)? == 0 {
            break;
        }
        answer_line(rt, number, line.as_slice())?;
    }
    Ok(())
}

fn answer_line(rt: &HostRuntime, number: u64, bytes: &[u8]) -> anyhow::Result<()> {
    let Ok(text) = std::str::from_utf8(bytes) else {
        println!(rt; "line {number}: not UTF-8 text")?;
        return Ok(());
    };
    if text.trim().is_empty() {
        return Ok(());
    }
    match reply(text) {
        Ok(answer) => rt.println(answer)?,
        Err(fault) => println!(rt; "line {number}: {fault}")?,
    }
    Ok(())
}
