// Lists the rule file `rules.chr` as CHR source, and says whether it is written out the same.
#![tactic(auto)]

use listing::Listing;
use rulefile::{Rules, load_and_write};
use std::fs;
use std::io::ErrorKind;

/// The bytes of the file, or none where it is missing.
fn file_bytes(rt: &HostRuntime) -> anyhow::Result<Vec<u8>> {
    match fs::read(rt, "rules.chr") {
        Err(e) if e.kind() == ErrorKind::NotFound => Ok(Vec::new(rt.alloc())),
        read => Ok(read?),
    }
}

/// The rules as source, and what was written out.
fn list(rt: &HostRuntime, bytes: &[u8], rules: &Rules, copy: &[u8]) -> anyhow::Result<()> {
    let listing = Listing { rules };
    print!(rt; "{listing}")?;
    let size = bytes.len();
    let symbols = rules.signature().symbols();
    let count = rules.rules().len();
    // The other program that compares, the checks of rule files, has words of its own; both in one call would be longer than this.
    let how = if copy == bytes {
        "the same"
    } else {
        "otherwise"
    };
    println!(rt; "% {size} bytes, {symbols} symbols, {count} rules, written out {how}")?;
    Ok(())
}

fn main(rt: HostRuntime) -> anyhow::Result<()> {
    let bytes = file_bytes(&rt)?;
    match load_and_write(rt.alloc(), &bytes) {
        Ok((rules, copy)) => list(&rt, &bytes, &rules, &copy)?,
        Err(refusal) => println!(rt; "refused {refusal}")?,
    }
    Ok(())
}
