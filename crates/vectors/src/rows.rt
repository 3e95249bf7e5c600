// Rows of a table: how they are parted and counted.
use std::alloc::Global;

// The two parts of a row, with the first `between` between them. A line that begins with # is no row.
pub fn parts(line: &str, between: char) -> Option<(&str, &str)> {
    if line.starts_with('#') {
        None
    } else {
        line.split_once(between)
    }
}

// The rows of a table so far, and how many differ.
#[derive(Drop)]
pub struct Tally<'a> {
    rt: &'a HostRuntime,
    table: &'a str,
    rows: u64,
    differ: u64,
}

impl<'a> Tally<'a> {
    pub fn new(rt: &'a HostRuntime, table: &'a str) -> Tally<'a> {
        Tally {
            rt,
            table,
            rows: 0,
            differ: 0,
        }
    }

    // The allocator for what a row needs.
    pub fn heap(&self) -> Global {
        self.rt.alloc()
    }

    // Counts a row, and prints it where it differs.
    pub fn row(&mut self, line: &str, same: bool) -> anyhow::Result<()> {
        self.rows = self.rows.saturating_add(1);
        if !same {
            self.differ = self.differ.saturating_add(1);
            let table = self.table;
            println!(self.rt; "{table}: differs: {line}")?;
        }
        Ok(())
    }

    pub fn total(self) -> anyhow::Result<()> {
        let Tally {
            rt,
            table,
            rows,
            differ,
        } = self;
        println!(rt; "{table}: {rows} rows, {differ} differ")?;
        Ok(())
    }
}
