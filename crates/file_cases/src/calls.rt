// The example with other entries and ties, which the sheet refuses or takes.
use crate::example::{A, A_TIE, B, B_TIE, C, END, HEAD, end, tie};
use crate::loads::{print_changes, print_load, print_records};
use std::io;

// As many entries as a sheet takes.
const FULL_SHEET: u8 = 48;

pub(crate) fn print_all(rt: &HostRuntime) -> io::Result<()> {
    names(rt)?;
    full_sheets(rt)?;
    ties(rt)?;
    clashes(rt)?;
    taken(rt)
}

fn names(rt: &HostRuntime) -> io::Result<()> {
    println!(rt; "names")?;
    print_records(rt, "no byte", &[HEAD, b"\x04\x00\x02\x00", A])?;
    print_records(rt, "13 bytes", &[HEAD, A, b"\x11\x00\x02\x00ABCDEFGHIJKLM"])?;
    print_records(
        rt,
        "13 bytes and a space",
        &[HEAD, A, B, b"\x11\x00\x02\x00ABCDEFGHIJK M"],
    )?;
    print_records(rt, "a space", &[HEAD, b"\x07\x00\x02\x00A B"])?;
    print_changes(rt, &[(18, 0x20), (23, 0x7F), (28, 0), (28, 0xFF)])?;
    print_changes(rt, &[(23, b'A'), (28, b'A'), (28, b'B')])
}

// A 49th entry is refused, after every fault of its name.
fn full_sheets(rt: &HostRuntime) -> io::Result<()> {
    println!(rt; "full sheets")?;
    print_full_sheet(rt, "48 entries", &end(48, 0))?;
    print_full_sheet(rt, "a 49th", A)?;
    print_full_sheet(rt, "a 49th, known", b"\x07\x00\x02\x00E47")?;
    print_full_sheet(rt, "a 49th, no name", b"\x04\x00\x02\x00")
}

// Entries E00, E01 and so on, and one more record.
fn print_full_sheet(rt: &HostRuntime, words: &str, record: &[u8]) -> io::Result<()> {
    let mut file = HEAD.to_vec(rt.alloc())?;
    for k in 0..FULL_SHEET {
        let name = format!(in rt.alloc(); "E{k:02}")?;
        file.extend_from_slice(b"\x07\x00\x02\x00")?;
        file.extend_from_slice(name.as_bytes())?;
    }
    file.extend_from_slice(record)?;
    print!(rt; "{words}: ")?;
    print_load(rt, file.as_slice())
}

fn ties(rt: &HostRuntime) -> io::Result<()> {
    println!(rt; "ties")?;
    print_records(rt, "no entries", &[HEAD, A_TIE])?;
    let ties = [
        (0, 3, 0x2),
        (3, 0, 0x2),
        (255, 255, 0),
        (1, 1, 0x2),
        (0, 0, 0),
        (0, 1, 0),
        (0, 1, 0x2000),
        (0, 1, 0x8000_0002),
        (0, 1, 0xFFFF_FFFF),
        (0, 1, 0x1FFF),
    ];
    for (first, second, mask) in ties {
        let other = tie(first, second, mask);
        print!(rt; "{first} {second} {mask:X} ")?;
        print_records(rt, "first", &[HEAD, A, B, C, &other, B_TIE, END])?;
        print!(rt; "{first} {second} {mask:X} ")?;
        print_records(rt, "second", &[HEAD, A, B, C, A_TIE, &other, END])?;
    }
    Ok(())
}

// Ties of one pair, read both ways, and ties that clash through a third entry.
fn clashes(rt: &HostRuntime) -> io::Result<()> {
    println!(rt; "clashes")?;
    print_records(
        rt,
        "one pair",
        &[HEAD, A, B, C, A_TIE, &tie(0, 2, 0x4), END],
    )?;
    print_records(
        rt,
        "one pair turned",
        &[HEAD, A, B, C, A_TIE, &tie(2, 0, 0x2), END],
    )?;
    print_records(
        rt,
        "a round",
        &[HEAD, A, B, C, A_TIE, B_TIE, &tie(1, 0, 0x2), &end(3, 3)],
    )
}

// Files that load, among them some that are written otherwise.
fn taken(rt: &HostRuntime) -> io::Result<()> {
    println!(rt; "files that load")?;
    print_records(rt, "the example", &[HEAD, A, B, C, A_TIE, B_TIE, END])?;
    print_records(rt, "no entries", &[HEAD, &end(0, 0)])?;
    print_records(rt, "no ties", &[HEAD, A, B, C, &end(3, 0)])?;
    print_records(rt, "a tie twice", &[HEAD, A, B, C, A_TIE, A_TIE, END])?;
    print_records(
        rt,
        "ties turned",
        &[HEAD, A, B, C, &tie(2, 1, 0x2), &tie(2, 0, 0x4), END],
    )?;
    print_records(
        rt,
        "a round",
        &[HEAD, A, B, C, A_TIE, B_TIE, &tie(0, 1, 0x2), &end(3, 3)],
    )
}
