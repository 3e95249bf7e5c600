// Replays published tables and worked examples against the library: a line for each table, and one for each row
// that differs.
#![tactic(auto)]

mod limits;
mod readings;
mod rows;
mod tables;

use limits::limits;
use readings::same_reading;
use rows::Tally;
use std::fs;
use tables::{same_character, same_units, same_utf8};

// Compares the two parts of each row of a table by `same`.
fn replay<F>(rt: &HostRuntime, table: &str, between: char, same: F) -> anyhow::Result<()>
where
    F: Fn(&str, &str) -> anyhow::Result<bool>,
    requires { F.IsAlwaysCallable same }
{
    let name = format!(in rt.alloc(); "{table}.txt")?;
    let text = fs::read_to_string(rt, name.as_str())?;
    let mut tally = Tally::new(rt, table);
    for line in text.lines() {
        if let Some((left, right)) = rows::parts(line, between) {
            tally.row(line, same(left, right)?)?;
        }
    }
    tally.total()
}

fn run(rt: &HostRuntime) -> anyhow::Result<()> {
    let heap = rt.alloc();
    replay(rt, "nextstep", '\t', same_character)?;
    replay(
        rt,
        "utf8",
        '\t',
        |points, bytes| same_utf8(heap, points, bytes),
    )?;
    replay(
        rt,
        "utf16",
        '\t',
        |points, units| same_units(heap, points, units),
    )?;
    replay(
        rt,
        "reader",
        ' ',
        |input, answers| same_reading(heap, input, answers),
    )?;
    limits(rt)
}

fn main(rt: HostRuntime) -> anyhow::Result<()> {
    run(&rt)
}
