// Readings as letters, for what people read and write.
ghost use Rattle.std.specs.Prelude.{◌≡◌, IfOk, string_bytes};
ghost use Rattle.algebra.specs.Letters.{letters_of, Ascii, spelling, ReadsLetter, ReadsText};

use crate::interface::ReadingSet;
use crate::members::Members;
use crate::standards::Standard;
use std::alloc::{AllocError, Global};

/// The letters of the algebra whose stamp has this code, from reading 0 up; none for a code that is not standard.
pub fn letters(code: u8) -> &'static [u8]
    ensures value { result.now ≡ letters_of code }
    ensures ascii { Ascii result.now }
{
    match Standard::try_from(code) {
        Ok(Standard::Instants) => b"=<>",
        Ok(Standard::Spans) => b"epPmMoOsSdDfF",
        Ok(Standard::Regions) => b"edcotTnN",
        Err(_) => b"",
    }
}

/// The reading that a letter stands for.
pub fn reading_of(code: u8, letter: u8) -> Option<usize>
    ensures { ReadsLetter code letter result }
{
    letters(code).iter().position(|x| *x == letter)
}

/// The set that a text of letters stands for, in any order; `None` where a byte is no letter.
pub fn set_of(code: u8, text: &[u8]) -> Option<ReadingSet>
    ensures { ReadsText code text.now result }
{
    let mut set = 0;
    for x in text {
        set |= 1 << reading_of(code, *x)?;
    }
    Some(set)
}

/// A set in letters, by rising reading.
pub fn spelled(heap: Global, code: u8, set: ReadingSet) -> Result<String, AllocError>
    ensures { IfOk result (λ text. string_bytes text ≡ spelling code set) }
{
    let alphabet = letters(code);
    let mut text = String::new(heap);
    for (k, x) in alphabet.iter().enumerate() {
        if Members::from(set).contains(k) {
            text.push(char::from(*x))?;
        }
    }
    Ok(text)
}
