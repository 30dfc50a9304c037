// Loads rule files that are given line by line as decimal bytes, and prints what each load answers.
#![tactic(auto)]

use rulefile::load_and_write;
use std::alloc::Global;

/// One word of a line: a byte, or `BYTExCOUNT` for several.
fn push_run(bytes: &mut Vec<u8>, word: &str) -> anyhow::Result<()> {
    let (byte, count) = word.split_once("x").unzip();
    let byte = byte.unwrap_or(word).parse::<u8>()?;
    let count = count.map_or(Ok(1), |count| count.parse::<u16>())?;
    // One by one, since `extend` would grow the vector to twice of what it is asked for.
    for _ in 0..count {
        bytes.push(byte)?;
    }
    Ok(())
}

/// The bytes of a line.
fn file_of(heap: Global, line: &str) -> anyhow::Result<Vec<u8>> {
    let mut bytes = Vec::new(heap);
    for word in line.split_whitespace() {
        push_run(&mut bytes, word)?;
    }
    Ok(bytes)
}

/// Loads a file, writes it out again and says what came of it.
fn try_file(rt: &HostRuntime, bytes: &[u8]) -> anyhow::Result<()> {
    match load_and_write(rt.alloc(), bytes) {
        Ok((rules, copy)) => {
            let symbols = rules.signature().symbols();
            let count = rules.rules().len();
            // The other program that compares, the list of a rule file, has words of its own; both in one call would be longer than this.
            let how = if copy.as_slice() == bytes {
                "same"
            } else {
                "otherwise"
            };
            println!(rt; "accepted {symbols} {count} {how}")?;
        }
        Err(refusal) => println!(rt; "refused {refusal}")?,
    }
    Ok(())
}

/// Every line that is no comment is a file.
fn main(rt: HostRuntime) -> anyhow::Result<()> {
    for line in rt.lines(rt.alloc()) {
        let line = line?;
        if !line.starts_with("#") {
            let bytes = file_of(rt.alloc(), line.as_str())?;
            try_file(&rt, &bytes)?;
        }
    }
    Ok(())
}
