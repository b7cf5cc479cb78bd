// Reads a script from standard input, one command a line, and prints each command with its answer.
#![tactic(auto)]

mod answer;
mod command;
mod files;
mod session;
mod times;

use answer::Answer;
use session::Session;
use std::io;
use std::io::{BufRead, BufReader, Write};

fn main(rt: HostRuntime) -> io::Result<()> {
    let heap = rt.alloc();
    let mut session = Session::default();
    for line in BufReader::new(heap, rt.stdin())?.split(heap, b'\n') {
        let read = line?;
        let command = without_return(read.as_slice());
        let text = String::from_utf8_lossy(heap, command)?;
        if let Some(answer) = session.perform(&rt, command, text.as_str())? {
            rt.stdout().write_all(command)?;
            match answer {
                Answer::Listing(lines) => print!(rt; " =\n{lines}")?,
                answer => println!(rt; " = {answer}")?,
            }
        }
    }
    Ok(())
}

// A line may end as other systems end theirs.
fn without_return(line: &[u8]) -> &[u8] {
    match line {
        [command @ .., b'\r'] => command,
        _ => line,
    }
}
