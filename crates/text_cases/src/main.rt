//! The program `text_cases`: it reads a table of texts of definitions and queries, and prints each line and, indented, what the answer to it is.
//!
//! | Line | Answer |
//! |---|---|
//! | `map TEXT` | the canonical spelling of this map, or `refused PART PLACE KIND` |
//! | `reduce TEXT` | the same of this reduce behind the map of the last `map` line |
//! | `auto COLLECTION FIELD ..` | none; an automatic definition of these fields, each a path with points |
//! | `same` | whether the last two definitions that were read are the same |
//! | `reads` | the collections that the last definition reads |
//! | `fields` | the names of its fields |
//! | `row` | the body of the row that is put for it |
//! | `query TEXT` | the canonical text of this query, or `refused Query PLACE KIND` |
//!
//! An empty line and one that begins with `#` have no answer; any other line ends the program with an error. In each line `⟨XX⟩` means
//! bytes, two hex digits each, and `⟨N*TEXT⟩` for N copies of the text.
#![tactic(auto)]

mod marks;
mod queries;
mod table;

use anyhow::Result;
use marks::written_out;
use std::io::{BufRead, BufReader};
use table::Table;

fn main(rt: HostRuntime) -> Result<()> {
    let mut table = Table::new(rt.alloc());
    for line in BufReader::new(rt.alloc(), rt.reader())?.lines(rt.alloc()) {
        let line = line?;
        println!(rt; "{line}")?;
        let line = written_out(rt.alloc(), line.as_str())?;
        let answer = table.answer(rt.alloc(), line.as_str())?;
        print!(rt; "{answer}")?;
    }
    Ok(())
}
