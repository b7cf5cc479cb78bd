// The example file, record by record, and what is put in place of its records and bytes.
use std::alloc::{AllocError, Global};

/// Spans, with no house rule.
pub(crate) const HEAD: &[u8] = b"\x0E\x00\x01\x00QCUE\x01\x02\xFF\xFF\xFF\xFF";

pub(crate) const A: &[u8] = b"\x05\x00\x02\x00A";

pub(crate) const B: &[u8] = b"\x05\x00\x02\x00B";

pub(crate) const C: &[u8] = b"\x05\x00\x02\x00C";

/// A is before C.
pub(crate) const A_TIE: &[u8] = b"\x0A\x00\x03\x00\x00\x02\x02\x00\x00\x00";

/// B is after C.
pub(crate) const B_TIE: &[u8] = b"\x0A\x00\x03\x00\x01\x02\x04\x00\x00\x00";

/// Three entries, two ties.
pub(crate) const END: &[u8] = b"\x07\x00\x04\x00\x03\x02\x00";

pub(crate) fn example(heap: Global) -> Result<Vec<u8>, AllocError> {
    let records: [&[u8]; 7] = [HEAD, A, B, C, A_TIE, B_TIE, END];
    records.concat(heap)
}

/// The example with another byte at one place.
pub(crate) fn changed(heap: Global, place: usize, byte: u8) -> Result<Vec<u8>, AllocError> {
    let mut file = example(heap)?;
    if let Some(old) = file.get_mut(place) {
        *old = byte;
    }
    Ok(file)
}

/// Another tie, by its bytes.
pub(crate) fn tie(first: u8, second: u8, mask: u32) -> [u8; 10] {
    let [m0, m1, m2, m3] = mask.to_le_bytes();
    [0x0A, 0, 3, 0, first, second, m0, m1, m2, m3]
}

/// Another end.
pub(crate) fn end(entries: u8, ties: u16) -> [u8; 7] {
    let [t0, t1] = ties.to_le_bytes();
    [7, 0, 4, 0, entries, t0, t1]
}
