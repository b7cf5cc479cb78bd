// What the cases share: loads of files of spans, and what they answer.
use crate::example::{changed, example};
use algebra::{Algebra, Spans};
use programme::Programme;
use qcue::{Fault, LONGEST_FILE, load, write};
use std::alloc::{AllocError, Global};
use std::io;

// A match: an answer is a number or a fault, and both are printed as they are.
pub(crate) fn print_answer(rt: &HostRuntime, answer: Result<usize, Fault>) -> io::Result<()> {
    match answer {
        Ok(number) => println!(rt; "{number}"),
        Err(fault) => println!(rt; "{fault}"),
    }
}

/// Loads a file into a blank programme of spans, and prints the answer. A file that is taken is written again: its length. One
/// that is refused must leave the programme blank, so that it takes the example.
pub(crate) fn print_load(rt: &HostRuntime, file: &[u8]) -> io::Result<()> {
    let mut programme = Programme::open(Spans);
    match load(&mut programme, file) {
        Ok(number) => {
            let length = written(rt.alloc(), &programme)?.len();
            println!(rt; "{number}, {length} bytes written")
        }
        Err(fault) if is_blank(rt.alloc(), &mut programme)? => println!(rt; "{fault}"),
        Err(fault) => println!(rt; "{fault}, and the programme has changed"),
    }
}

/// The same for a file of these records.
pub(crate) fn print_records(rt: &HostRuntime, words: &str, records: &[&[u8]]) -> io::Result<()> {
    let file = records.concat(rt.alloc())?;
    print!(rt; "{words}: ")?;
    print_load(rt, file.as_slice())
}

/// The same for the example with one byte changed, at each of these places.
pub(crate) fn print_changes(rt: &HostRuntime, changes: &[(usize, u8)]) -> io::Result<()> {
    for (place, byte) in changes {
        let file = changed(rt.alloc(), *place, *byte)?;
        print!(rt; "{byte:02X} at {place}: ")?;
        print_load(rt, file.as_slice())?;
    }
    Ok(())
}

/// The programme's file; no bytes where it is refused.
pub(crate) fn written<B: Algebra>(
    heap: Global,
    programme: &Programme<B>,
) -> Result<Vec<u8>, AllocError> {
    let mut buffer = vec![in heap; 0; LONGEST_FILE]?;
    let length = write(programme, buffer.as_mut_slice()).unwrap_or(0);
    buffer.truncate(length);
    Ok(buffer)
}

// Whether the programme has no entries, and takes the example as a new one does.
fn is_blank(heap: Global, programme: &mut Programme<Spans>) -> Result<bool, AllocError> {
    let file = example(heap)?;
    let blank = programme.entries() == 0 && load(programme, file.as_slice()).is_ok();
    Ok(blank && written(heap, programme)?.as_slice() == file.as_slice())
}
