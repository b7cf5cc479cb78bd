// Compares the algebras with tables that were made independently, and tries the laws on many house rules.
#![tactic(auto)]

mod laws;
mod published;

use algebra::{Algebra, Standard};
use laws::count_lawful;
use published::Tally;
use std::io;

const HOUSE_RULES: usize = 200;

fn main(rt: HostRuntime) -> io::Result<()> {
    let mut tally = Tally::default();
    for line in rt.lines(rt.alloc()) {
        let line = line?;
        if !tally.note(line.as_str()) {
            println!(rt; "differs: {line}")?;
        }
    }
    println!(rt;
        "{} answers agree, {} differ",
        tally.agreeing, tally.differing
    )?;
    for algebra in [Standard::Instants, Standard::Spans, Standard::Regions] {
        let code = algebra.stamp().code;
        let lawful = count_lawful(algebra, HOUSE_RULES);
        println!(rt; "algebra {code}: the laws hold under {lawful} of {HOUSE_RULES} house rules")?;
    }
    Ok(())
}
