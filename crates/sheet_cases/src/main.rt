// Cases of programmes: every refusal and the order of refusals, full sheets, both directions, repeated ties, links, tries, lines, times.
#![tactic(auto)]

// Lists of cases have one shape and are no twins, here and in `file_cases`.
mod cases;

use algebra::{Instants, ReadingSet, Spans};
use cases::{enter_numbered, print_answer, print_ties, tie, tied};
use programme::{Call, Programme, Refusal, run};
use std::io;

const BEFORE: ReadingSet = 0x2;

const AFTER: ReadingSet = 0x4;

const MEETS: ReadingSet = 0x8;

const STARTS: ReadingSet = 0x80;

fn main(rt: HostRuntime) -> io::Result<()> {
    names(&rt)?;
    full_sheet(&rt)?;
    ties(&rt)?;
    links(&rt)?;
    line(&rt)?;
    times(&rt)
}

// Names at the edges of what is allowed; the earliest refusal counts.
fn names(rt: &HostRuntime) -> io::Result<()> {
    println!(rt; "names")?;
    let mut programme = Programme::open(Instants);
    let names: [&[u8]; 10] = [
        b"",
        b"ABCDEFGHIJKLM",
        b"ABCDEFGHIJK M",
        b"A B",
        b"\x7F",
        b"\x20",
        b"ABCDEFGHIJKL",
        b"!",
        b"~",
        b"!",
    ];
    for name in names {
        print_answer(rt, programme.entry(name))?;
    }
    Ok(())
}

// 48 entries stand, and a 49th is refused, after every fault of its name.
fn full_sheet(rt: &HostRuntime) -> io::Result<()> {
    println!(rt; "a full sheet")?;
    let mut programme = Programme::open(Instants);
    enter_numbered(&mut programme, 48);
    println!(rt; "{} entries", programme.entries())?;
    print_answer(rt, programme.entry(b"ABCDEFGHIJKLM"))?;
    print_answer(rt, programme.entry(b"A B"))?;
    print_answer(rt, programme.entry(b"E47"))?;
    print_answer(rt, programme.entry(b"E48"))?;
    print_answer(rt, programme.tie(tie(47, 0, BEFORE)))?;
    print_answer(rt, programme.tie(tie(48, 0, BEFORE)))?;
    match programme.name(47) {
        Ok(name) => println!(rt; "{name:?}")?,
        Err(refusal) => println!(rt; "refused {}", refusal.number())?,
    }
    Ok(())
}

// Ties in turn; the earliest refusal counts, a refused tie leaves no trace, and ties of one pair are taken together.
fn ties(rt: &HostRuntime) -> io::Result<()> {
    println!(rt; "ties")?;
    let mut programme = Programme::open(Instants);
    enter_numbered(&mut programme, 3);
    let ties = [
        (7, 7, 0),
        (usize::MAX, 0, BEFORE),
        (0, 3, BEFORE),
        (1, 1, 0),
        (0, 1, 0),
        (0, 1, 0x8),
        (0, 1, 0xFFFF_FFFF),
        (0, 1, 0x7),
        (0, 1, 0x3),
        (1, 0, 0x5),
        (0, 1, AFTER),
        (0, 1, 0x6),
        (1, 0, BEFORE),
        (1, 2, BEFORE),
        (2, 0, BEFORE),
        (0, 2, BEFORE),
    ];
    for (first, second, mask) in ties {
        let asked = tie(first, second, mask);
        print_answer(rt, programme.try_tie(asked))?;
        print_answer(rt, programme.tie(asked))?;
    }
    print_ties(rt, &programme)
}

// What is linked, and what is settled there.
fn links(rt: &HostRuntime) -> io::Result<()> {
    println!(rt; "a fan with its centre last")?;
    print_ties(
        rt,
        &tied(&[tie(0, 3, BEFORE), tie(1, 3, BEFORE), tie(2, 3, BEFORE)]),
    )?;
    println!(rt; "a fan with its centre first")?;
    print_ties(rt, &tied(&[tie(0, 1, BEFORE), tie(0, 2, BEFORE)]))?;
    println!(rt; "a new link is narrowed by old ones")?;
    print_ties(
        rt,
        &tied(&[
            tie(1, 0, BEFORE),
            tie(0, 2, BEFORE),
            tie(1, 3, BEFORE),
            tie(2, 3, BEFORE),
        ]),
    )
}

// A line of calls, with its answers recorded.
fn line(rt: &HostRuntime) -> io::Result<()> {
    println!(rt; "a line")?;
    let calls = [
        Call::Entry(b"LAMP"),
        Call::Entry(b"LAMP"),
        Call::Entry(b"CURTAIN"),
        Call::Try(tie(0, 1, BEFORE)),
        Call::Tie(tie(1, 0, BEFORE)),
        Call::Tie(tie(0, 1, BEFORE)),
    ];
    let mut answers: [Result<usize, Refusal>; 6] = [Ok(0); 6];
    match run(Instants, &calls, &mut answers) {
        Some(programme) => print_ties(rt, &programme)?,
        None => println!(rt; "not performed")?,
    }
    for answer in answers {
        print_answer(rt, answer)?;
    }
    match run(Instants, &calls, &mut answers[0..5]) {
        Some(_) => println!(rt; "performed"),
        None => println!(rt; "not performed"),
    }
}

// Times for two spans, the first of which meets the second or starts it: at the bounds of the numbers, with equal starts, with
// another count, and where a span ends before or as it starts.
fn times(rt: &HostRuntime) -> io::Result<()> {
    println!(rt; "times")?;
    let mut programme = Programme::open(Spans);
    for name in [b"A", b"B"] {
        print_answer(rt, programme.entry(name))?;
    }
    print_answer(rt, programme.tie(tie(0, 1, MEETS | STARTS)))?;
    let times: [&[i32]; 10] = [
        &[i32::MIN, 0, 0, i32::MAX],
        &[0, 3, 0, 9],
        &[i32::MIN, i32::MAX, i32::MIN, i32::MAX],
        &[0, 3, 4, 9],
        &[],
        &[0, 3, 3],
        &[0, 3, 3, 9, 10],
        &[3, 0, 0, 9],
        &[0, 3, i32::MAX, i32::MIN],
        &[0, 3, 3, 3],
    ];
    for numbers in times {
        match programme.fits(numbers) {
            Ok(None) => println!(rt; "none")?,
            Ok(Some((first, second))) => println!(rt; "{first} {second}")?,
            Err(misfit) => println!(rt; "refused {}", misfit.number())?,
        }
    }
    Ok(())
}
