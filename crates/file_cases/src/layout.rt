// The example with bytes or records changed, so that it does not keep the layout; and what is read of its head.
use crate::example::{A, A_TIE, B, B_TIE, C, END, HEAD, changed, end, tie};
use crate::loads::{print_changes, print_records};
use qcue::head;
use std::io;

pub(crate) fn print_all(rt: &HostRuntime) -> io::Result<()> {
    lengths(rt)?;
    kinds(rt)?;
    places(rt)?;
    trailing(rt)?;
    heads_and_ties(rt)?;
    ends(rt)?;
    stamps(rt)?;
    counts(rt)?;
    heads(rt)
}

// Records that are shorter than 4 bytes, or longer than the file; even if the kind is unknown too.
fn lengths(rt: &HostRuntime) -> io::Result<()> {
    println!(rt; "lengths")?;
    print_changes(
        rt,
        &[
            (0, 0),
            (0, 3),
            (1, 1),
            (14, 3),
            (24, 0),
            (30, 1),
            (39, 3),
            (49, 3),
            (49, 8),
            (50, 0xFF),
        ],
    )?;
    print_records(
        rt,
        "a record of 3 and no kind",
        &[HEAD, A, b"\x03\x00\x09\x00"],
    )?;
    print_records(
        rt,
        "3 bytes in place of ties",
        &[HEAD, A, B, b"\x04\x00\x03"],
    )
}

fn kinds(rt: &HostRuntime) -> io::Result<()> {
    println!(rt; "kinds")?;
    print_changes(
        rt,
        &[
            (2, 0),
            (3, 1),
            (16, 5),
            (21, 0),
            (32, 1),
            (41, 9),
            (51, 0xFF),
            (52, 4),
        ],
    )?;
    print_records(
        rt,
        "a record with no payload",
        &[HEAD, b"\x04\x00\xFF\xFF", A],
    )
}

// Kinds that may not come next, even with another length; no end.
fn places(rt: &HostRuntime) -> io::Result<()> {
    println!(rt; "places")?;
    print_changes(
        rt,
        &[
            (2, 2),
            (2, 3),
            (2, 4),
            (16, 1),
            (31, 1),
            (41, 1),
            (41, 2),
            (51, 2),
        ],
    )?;
    print_records(rt, "nothing", &[])?;
    print_records(rt, "a short tie first", &[b"\x05\x00\x03\x00X"])?;
    print_records(rt, "a short head second", &[HEAD, b"\x04\x00\x01\x00"])?;
    print_records(
        rt,
        "a bad name behind a tie",
        &[HEAD, A, B, C, A_TIE, b"\x04\x00\x02\x00"],
    )?;
    print_records(rt, "no end", &[HEAD, A, B, C])
}

// Bytes behind the end, whatever they are.
fn trailing(rt: &HostRuntime) -> io::Result<()> {
    println!(rt; "behind the end")?;
    print_records(
        rt,
        "a byte behind",
        &[HEAD, A, B, C, A_TIE, B_TIE, END, b"\x00"],
    )?;
    print_records(
        rt,
        "an end behind",
        &[HEAD, A, B, C, A_TIE, B_TIE, END, END],
    )?;
    print_records(
        rt,
        "no kind behind",
        &[HEAD, &end(0, 0), b"\x04\x00\x09\x00"],
    )?;
    print_records(rt, "a file behind", &[HEAD, &end(0, 0), HEAD, &end(0, 0)])
}

// Records of another length than their kind has, whatever they hold.
fn heads_and_ties(rt: &HostRuntime) -> io::Result<()> {
    println!(rt; "heads and ties of other lengths")?;
    print_records(
        rt,
        "a head of 13",
        &[b"\x0D\x00\x01\x00QCUE\x01\x02\xFF\xFF\xFF", A],
    )?;
    print_records(
        rt,
        "a head of 15",
        &[b"\x0F\x00\x01\x00QCUE\x01\x02\xFF\xFF\xFF\xFF\xFF"],
    )?;
    print_records(rt, "a head of 5, no mark", &[b"\x05\x00\x01\x00X"])?;
    print_records(
        rt,
        "a tie of 4",
        &[HEAD, A, B, C, A_TIE, b"\x04\x00\x03\x00", END],
    )?;
    print_records(
        rt,
        "a tie of 9",
        &[HEAD, A, B, C, b"\x09\x00\x03\x00\x00\x02\x02\x00\x00"],
    )?;
    print_records(
        rt,
        "a tie of 11",
        &[HEAD, A, b"\x0B\x00\x03\x00\x00\x00\x00\x00\x00\x00\x00"],
    )
}

fn ends(rt: &HostRuntime) -> io::Result<()> {
    println!(rt; "ends of other lengths")?;
    print_records(rt, "an end of 4", &[HEAD, b"\x04\x00\x04\x00"])?;
    print_records(
        rt,
        "an end of 6",
        &[HEAD, A, B, C, A_TIE, B_TIE, b"\x06\x00\x04\x00\x03\x02"],
    )?;
    print_records(
        rt,
        "an end of 8",
        &[HEAD, A, B, C, b"\x08\x00\x04\x00\x03\x00\x00\x00"],
    )
}

// Other marks, versions, codes and house masks.
fn stamps(rt: &HostRuntime) -> io::Result<()> {
    println!(rt; "stamps")?;
    print_changes(
        rt,
        &[
            (4, b'q'),
            (7, b'F'),
            (8, 0),
            (8, 2),
            (9, 0),
            (9, 1),
            (9, 3),
            (9, 4),
            (10, 0xFE),
            (13, 0x7F),
        ],
    )
}

fn counts(rt: &HostRuntime) -> io::Result<()> {
    println!(rt; "counts")?;
    print_changes(rt, &[(53, 2), (53, 4), (54, 1), (54, 3), (55, 1)])?;
    print_records(rt, "no entry", &[HEAD, &end(1, 0)])?;
    print_records(rt, "an entry", &[HEAD, A, &end(0, 0)])?;
    print_records(rt, "a tie", &[HEAD, A, B, &tie(0, 1, 0x2), &end(2, 0)])?;
    print_records(
        rt,
        "a tie twice",
        &[HEAD, A, B, C, A_TIE, A_TIE, &end(3, 1)],
    )
}

// The stamp in the first record, whatever follows it.
fn heads(rt: &HostRuntime) -> io::Result<()> {
    println!(rt; "heads")?;
    for (place, byte) in [
        (0, 3),
        (0, 13),
        (1, 1),
        (2, 2),
        (2, 5),
        (4, b'q'),
        (8, 2),
        (9, 0),
        (9, 1),
        (9, 2),
        (9, 3),
        (9, 4),
        (13, 0x7F),
        (14, 0),
    ] {
        print!(rt; "{byte:02X} at {place}: ")?;
        print_head(rt, changed(rt.alloc(), place, byte)?.as_slice())?;
    }
    print!(rt; "nothing: ")?;
    print_head(rt, &[])
}

fn print_head(rt: &HostRuntime, file: &[u8]) -> io::Result<()> {
    match head(file) {
        Ok(stamp) => println!(rt; "{} {:08X}", stamp.code, stamp.house),
        Err(fault) => println!(rt; "{fault}"),
    }
}
