// Lines of published tables: `spans p m: p` says that p composed with m is p, `spans p: P` that the converse of p is P.
use algebra::{Algebra, ReadingSet, Standard, set_of};

/// How many lines agree with the engine.
#[derive(Clone, Copy, Default)]
pub struct Tally {
    pub agreeing: u32,
    pub differing: u32,
}

impl Tally {
    // Counts a line; false where it differs. A line that begins with `#` is a comment.
    pub(crate) fn note(&mut self, line: &str) -> bool {
        if line.starts_with('#') {
            return true;
        }
        let agrees = agrees(line) == Some(true);
        if agrees {
            self.agreeing = self.agreeing.saturating_add(1);
        } else {
            self.differing = self.differing.saturating_add(1);
        }
        agrees
    }
}

// Whether the engine answers as the line says; none where the line is no line of a table.
fn agrees(line: &str) -> Option<bool> {
    let (question, answer) = line.split_once(": ")?;
    let mut words = question.split(' ');
    let algebra = words.next()?.parse::<Standard>().ok()?;
    let code = algebra.stamp().code;
    let first = set_of(code, words.next()?.as_bytes())?;
    let expected: ReadingSet = set_of(code, answer.as_bytes())?;
    let found = match words.next() {
        Some(second) => algebra.compose(first, set_of(code, second.as_bytes())?),
        None => algebra.converse(first),
    };
    Some(found == expected)
}
