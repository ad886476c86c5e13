// Lists image files: the header, symbols and clauses of each, or the one line of its fault.
#![tactic(auto)]

mod listing;

use anyhow::ensure;
use image::{Symbol, check, to_words};
use listing::{Listing, list_fault};
use std::{env, fs};

// Prints the listing of a file.
fn inspect(rt: &HostRuntime, path: &str) -> anyhow::Result<()> {
    let heap = rt.alloc();
    let bytes = fs::read(rt, path)?;
    ensure!(bytes.len() % 4 == 0, "the file is no whole number of words");
    let words = to_words(heap, bytes.as_slice())?;
    match check(words.as_slice()) {
        Ok(image) => {
            let symbols: Vec<Symbol> = image.symbols().collect(heap)?;
            let listing = Listing {
                image,
                symbols: symbols.as_slice(),
            };
            rt.print(listing)?;
        }
        Err(fault) => rt.println(list_fault(heap, fault)?)?,
    }
    Ok(())
}

// The listings of the files that the arguments name, one after another.
fn main(rt: HostRuntime) -> anyhow::Result<()> {
    let mut paths = env::args(&rt)?.skip(1).peekable();
    ensure!(paths.peek().is_some(), "usage: inspect FILE..");
    for path in paths {
        inspect(&rt, path.as_str())?;
    }
    Ok(())
}
