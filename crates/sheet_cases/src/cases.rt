// What the cases share.
use algebra::{Instants, ReadingSet};
use programme::{Programme, Refusal, Tie};
use std::io;

// Enters E00, E01 and so on. Two digits by hand, so that no case needs memory.
pub(crate) fn enter_numbered(programme: &mut Programme<Instants>, count: u8) {
    for k in 0..count {
        let _ = programme.entry(&[b'E', b'0' + k / 10 % 10, b'0' + k % 10]);
    }
}

// The first of the two is in one of the readings to the second.
pub(crate) fn tie(first: usize, second: usize, mask: ReadingSet) -> Tie {
    Tie {
        first,
        second,
        mask,
    }
}

// A programme of four entries with the ties.
pub(crate) fn tied(ties: &[Tie]) -> Programme<Instants> {
    let mut programme = Programme::open(Instants);
    enter_numbered(&mut programme, 4);
    for tie in ties {
        let _ = programme.tie(*tie);
    }
    programme
}

// A match: for these cases a refusal is its number, and has no text.
pub(crate) fn print_answer(rt: &HostRuntime, answer: Result<usize, Refusal>) -> io::Result<()> {
    match answer {
        Ok(number) => println!(rt; "{number}"),
        Err(refusal) => println!(rt; "refused {}", refusal.number()),
    }
}

// For each ordered pair that is linked: the two numbers, what is given and what is settled.
pub(crate) fn print_ties(rt: &HostRuntime, programme: &Programme<Instants>) -> io::Result<()> {
    for i in 0..programme.entries() {
        for j in 0..programme.entries() {
            let given = programme.given(i, j).unwrap_or(0);
            if let Ok(Some(settled)) = programme.look(i, j) {
                println!(rt; "{i} {j} {given:X} {settled:X}")?;
            }
        }
    }
    Ok(())
}
