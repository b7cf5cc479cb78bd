// Cases of files: those that came with their answers, the example cut short and changed in many ways, buffers.
#![tactic(auto)]

// Lists of cases have one shape and are no twins, here and in `sheet_cases`.
mod calls;
mod example;
mod layout;
mod loads;
mod vectors;

use algebra::Spans;
use example::example;
use loads::{print_answer, print_load};
use programme::{Call, Programme, Tie};
use qcue::{Answer, Request, load, run, write};
use std::io;

// Stands where nothing was written, and nowhere in the example.
const UNTOUCHED: u8 = 0xEE;

fn main(rt: HostRuntime) -> io::Result<()> {
    vectors::print_all(&rt)?;
    cut_short(&rt)?;
    occupied(&rt)?;
    layout::print_all(&rt)?;
    calls::print_all(&rt)?;
    buffers(&rt)?;
    line(&rt)
}

// The example cut at each length.
fn cut_short(rt: &HostRuntime) -> io::Result<()> {
    println!(rt; "the example cut short")?;
    let file = example(rt.alloc())?;
    for length in 0..file.len() {
        print!(rt; "{length}: ")?;
        print_load(rt, &file[..length])?;
    }
    Ok(())
}

// Loads into a programme that has entries: of the good file, and of what is no file at all.
fn occupied(rt: &HostRuntime) -> io::Result<()> {
    println!(rt; "a programme with entries")?;
    let file = example(rt.alloc())?;
    let mut programme = Programme::open(Spans);
    let _ = programme.entry(b"LAMP");
    print_answer(rt, load(&mut programme, file.as_slice()))?;
    print_answer(rt, load(&mut programme, file.as_slice()))?;
    print_answer(rt, load(&mut programme, b""))?;
    println!(rt; "{} entries", programme.entries())?;
    let mut fresh = Programme::open(Spans);
    print_answer(rt, load(&mut fresh, file.as_slice()))?;
    print_answer(rt, load(&mut fresh, file.as_slice()))?;
    println!(rt; "{} entries", fresh.entries())
}

// The example, loaded and written into buffers of several sizes.
fn buffers(rt: &HostRuntime) -> io::Result<()> {
    println!(rt; "buffers")?;
    let file = example(rt.alloc())?;
    let mut programme = Programme::open(Spans);
    let _ = load(&mut programme, file.as_slice());
    for size in [0, 55, 56, 60] {
        let mut buffer = vec![in rt.alloc(); UNTOUCHED; size]?;
        match write(&programme, buffer.as_mut_slice()) {
            Ok(length) => print!(rt; "{size}: {length}")?,
            Err(refusal) => print!(rt; "{size}: refused {}", refusal.number())?,
        }
        if buffer.as_slice().starts_with(file.as_slice()) {
            print!(rt; ", the example")?;
        }
        println!(rt; ", {} untouched", untouched(buffer.as_slice()))?;
    }
    Ok(())
}

fn untouched(buffer: &[u8]) -> usize {
    buffer.iter().filter(|byte| **byte == UNTOUCHED).count()
}

// Calls and loads, some of them refused: of a part of the file, of the file twice, of a name that it has.
fn requests<'a>(file: &'a [u8]) -> [Request<'a>; 7] {
    let tie = Tie {
        first: 0,
        second: 1,
        mask: 0x2,
    };
    [
        Request::Load(file.split_last().map_or(file, |(_, part)| part)),
        Request::Load(file),
        Request::Load(file),
        Request::Call(Call::Entry(b"C")),
        Request::Call(Call::Entry(b"D")),
        Request::Call(Call::Try(tie)),
        Request::Call(Call::Tie(tie)),
    ]
}

// A line of calls and loads, with its answers recorded.
fn line(rt: &HostRuntime) -> io::Result<()> {
    println!(rt; "a line")?;
    let file = example(rt.alloc())?;
    let requests = requests(file.as_slice());
    let mut answers = [Answer::Call(Ok(0)); 7];
    match run(Spans, &requests, &mut answers) {
        Some(programme) => println!(rt; "{} entries", programme.entries())?,
        None => println!(rt; "not performed")?,
    }
    for answer in answers {
        match answer {
            Answer::Call(Ok(number)) => println!(rt; "{number}")?,
            Answer::Call(Err(refusal)) => println!(rt; "refused {}", refusal.number())?,
            Answer::Load(answer) => print_answer(rt, answer)?,
        }
    }
    match run(Spans, &requests, &mut answers[1..]) {
        Some(_) => println!(rt; "performed"),
        None => println!(rt; "not performed"),
    }
}
