// Files that a script loads and writes.
use crate::answer::Answer;
use algebra::Algebra;
use programme::Programme;
use qcue::{FileRefusal, LONGEST_FILE};
use std::fs;

pub(crate) fn load<B: Algebra + Copy>(
    rt: &HostRuntime,
    programme: &mut Programme<B>,
    path: &str,
) -> Result<usize, Answer> {
    let bytes = fs::read(rt, path).map_err(Answer::NotRead)?;
    Ok(qcue::load(programme, bytes.as_slice())?)
}

/// Answers the length of the file.
pub(crate) fn write<B: Algebra>(
    rt: &HostRuntime,
    programme: &Programme<B>,
    path: &str,
) -> Result<usize, Answer> {
    let mut buffer = [0; LONGEST_FILE];
    let file = written(programme, &mut buffer)?;
    fs::write(rt, path, file).map_err(Answer::NotWritten)?;
    Ok(file.len())
}

/// The front of the buffer, with the programme's file.
pub(crate) fn written<'a, B: Algebra>(
    programme: &Programme<B>,
    buffer: &'a mut [u8],
) -> Result<&'a [u8], FileRefusal> {
    let length = qcue::write(programme, buffer)?;
    buffer.get(..length).ok_or(FileRefusal::TooShort)
}
