//! Reads calls to theories, one to a line, makes them, and writes a line for each answer.
//!
//! A line begins with `names` or `bounds`, the theory that it is for; then comes the call: `clear`, `make`, `count`,
//! `failed`, `fixed X`, `range X`, `tell PRIMITIVE` or `ask PRIMITIVE`. A primitive is `same A B`, `least A N` or
//! `most A N`, and an operand a number, or `v` with a variable's number.

#![tactic(auto)]

mod answer;
mod call;

use answer::Answer;
use call::Call;
use classes::forest::Forest;
use contents::content::Content;
use std::io::{BufRead, BufReader};
use theory::bounds::Bounds;
use theory::interface::{RangedTheory, Theory};
use theory::interpreted::Interpreted;
use theory::names::Names;

/// Makes a call.
fn perform<T: RangedTheory>(theory: &mut T, call: Call) -> Answer {
    match call {
        Call::Clear => {
            theory.clear();
            Answer::Cleared
        }
        Call::Make => Answer::Made(theory.make()),
        Call::Count => Answer::Number(theory.count()),
        Call::Failed => Answer::Truth(theory.failed()),
        Call::Fixed(x) => Answer::Truth(theory.fixed(x)),
        Call::Range(x) => Answer::Ends(theory.least(x).zip(theory.greatest(x))),
        Call::Tell(p) => Answer::Told(theory.tell(p)),
        Call::Ask(p) => Answer::Truth(theory.ask(p)),
    }
}

fn main(rt: HostRuntime) -> anyhow::Result<()> {
    let heap = rt.alloc();
    let mut names = Names::new(heap)?;
    let mut bounds = Bounds::new(heap)?;
    for line in BufReader::new(heap, rt.stdin())?.lines(heap) {
        let line = line?;
        let words: Vec<&str> = line.as_str().split_whitespace().collect(heap)?;
        let Some((theory, rest)) = words.as_slice().split_first() else {
            continue;
        };
        let call = Call::try_from(rest)?;
        // The theories are two types, and `dyn` asks that every member has a receiver, which a capacity has not.
        let answer = match *theory {
            "names" => perform(&mut names, call),
            _ => perform(&mut bounds, call),
        };
        println!(rt; "{answer}")?;
    }
    Ok(())
}
