// Files that came with their listings or refusals. Standard input has their names.
use crate::loads::written;
use algebra::Algebra;
use listing::page;
use programme::Programme;
use qcue::{algebra_of, load};
use std::alloc::{AllocError, Global};
use std::{fs, io};

pub(crate) fn print_all(rt: &HostRuntime) -> io::Result<()> {
    let mut cases = 0u32;
    let mut agreeing = 0u32;
    for line in rt.lines(rt.alloc()) {
        let name = line?;
        cases = cases.saturating_add(1);
        if agrees(rt, name.as_str())? {
            agreeing = agreeing.saturating_add(1);
            println!(rt)?;
        } else {
            println!(rt; " differs")?;
        }
    }
    println!(rt; "{cases} cases, {agreeing} agree")
}

// Prints whether the file NAME.qcue is listed, or why not, and tells whether NAME.txt has the same text.
fn agrees(rt: &HostRuntime, name: &str) -> io::Result<bool> {
    let heap = rt.alloc();
    let file = fs::read(rt, format!(in heap; "{name}.qcue")?)?;
    let text = fs::read_to_string(rt, format!(in heap; "{name}.txt")?)?;
    match page(heap, file.as_slice())? {
        Ok(listing) => {
            print!(rt; "{name}: listed")?;
            Ok(listing.as_str() == text.as_str() && comes_back(heap, file.as_slice())?)
        }
        Err(refused) => {
            print!(rt; "{name}: {refused}")?;
            Ok(format!(in heap; "{refused}\n")?.as_str() == text.as_str())
        }
    }
}

// Whether the file of the programme that the file loads as loads into a fresh one with the same names and sets, which has the
// same file.
fn comes_back(heap: Global, file: &[u8]) -> Result<bool, AllocError> {
    let Ok(algebra) = algebra_of(file) else {
        return Ok(false);
    };
    let mut programme = Programme::open(algebra);
    let mut fresh = Programme::open(algebra);
    let loaded = load(&mut programme, file).is_ok();
    let first = written(heap, &programme)?;
    let reloaded = load(&mut fresh, first.as_slice()).is_ok();
    let second = written(heap, &fresh)?;
    Ok(loaded && reloaded && first.as_slice() == second.as_slice() && are_same(&programme, &fresh))
}

fn are_same<B: Algebra>(one: &Programme<B>, other: &Programme<B>) -> bool {
    one.entries() == other.entries()
        && (0..one.entries()).all(|i| {
            one.name(i) == other.name(i)
                && (0..one.entries()).all(|j| {
                    one.given(i, j) == other.given(i, j) && one.look(i, j) == other.look(i, j)
                })
        })
}
