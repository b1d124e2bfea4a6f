//! Marks in a line: `⟨XX⟩` and `⟨N*TEXT⟩`.
use anyhow::{Context, Result};
use std::alloc::Global;

fn add_mark(alloc: Global, out: &mut String, mark: &str) -> Result<()> {
    match mark.split_once("*") {
        Some((count, text)) => {
            for _ in 0..count.parse::<u32>()? {
                out.push_str(text)?;
            }
        }
        None => {
            let text = String::from_utf8(hex::decode(alloc, mark)?)?;
            out.push_str(text.as_str())?;
        }
    }
    Ok(())
}

/// The line with what its marks mean.
pub fn written_out(alloc: Global, line: &str) -> Result<String> {
    let mut pieces = line.split("⟨");
    let mut out = String::from_str(alloc, pieces.next().unwrap_or(""))?;
    for piece in pieces {
        let (mark, behind) = piece.split_once("⟩").context("a mark has no end")?;
        add_mark(alloc, &mut out, mark)?;
        out.push_str(behind)?;
    }
    Ok(out)
}
