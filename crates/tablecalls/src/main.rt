// Makes the calls that it reads on five partner tables, one table after the other, and prints what each answers.
#![tactic(auto)]

mod answers;
mod calls;

use self::answers::make;
use self::calls::{Call, parse};
use chain::ChainTable;
use front::FrontTable;
use table::partner::PartnerTable;
use table::scan::ScanTable;

fn read_calls(rt: &HostRuntime) -> anyhow::Result<Vec<Call>> {
    let heap = rt.alloc();
    let mut calls = Vec::new(heap);
    for line in rt.lines(heap) {
        calls.push(parse(heap, line?.as_str())?)?;
    }
    Ok(calls)
}

fn print_answers<P: PartnerTable + Drop>(
    rt: &HostRuntime,
    name: &str,
    mut table: P,
    calls: &[Call],
) -> anyhow::Result<()> {
    println!(rt; "{name} holds {}", table.capacity())?;
    for call in calls {
        let answer = make(&mut table, call);
        println!(rt; "{answer}")?;
    }
    Ok(())
}

fn main(rt: HostRuntime) -> anyhow::Result<()> {
    let heap = rt.alloc();
    let calls = read_calls(&rt)?;
    print_answers(&rt, "scan", ScanTable::new(heap)?, calls.as_slice())?;
    print_answers(&rt, "chain", ChainTable::new(heap)?, calls.as_slice())?;
    print_answers(
        &rt,
        "front before scan",
        FrontTable::new(heap, ScanTable::new(heap)?)?,
        calls.as_slice(),
    )?;
    let front = FrontTable::new(heap, ChainTable::new(heap)?)?;
    print_answers(&rt, "front before chain", front, calls.as_slice())?;
    let front = FrontTable::new(heap, ChainTable::new(heap)?)?;
    print_answers(
        &rt,
        "front before front",
        FrontTable::new(heap, front)?,
        calls.as_slice(),
    )
}
