// What a script has opened, and what its commands answer.
use crate::answer::Answer;
use crate::command::{Bond, Command, Expected, Order, Question, read_numbers, read_set};
use crate::{files, times};
use algebra::{Algebra, House, ReadingSet, Standard, spelled};
use listing::listing;
use programme::{Call, Programme, Tie};
use std::alloc::{AllocError, Global};

// A number that no entry has, for a name that none has.
const NO_ENTRY: usize = usize::MAX;

/// What a script has opened last, if anything yet.
#[derive(Drop, Default)]
pub struct Session {
    rehearsal: Option<Rehearsal>,
}

// An algebra, and the programme that was opened in it.
#[derive(Drop)]
struct Rehearsal {
    algebra: House<Standard>,
    programme: Programme<House<Standard>>,
}

impl Session {
    /// Performs the command on a line; none where the line is blank or a comment.
    pub(crate) fn perform<'a>(
        &mut self,
        rt: &HostRuntime,
        line: &'a [u8],
        text: &'a str,
    ) -> Result<Option<Answer>, AllocError> {
        let command = match Command::read(line, text) {
            Ok(Some(command)) => command,
            Ok(None) => return Ok(None),
            // What is not understood has an answer too, so it is no error of this function.
            Err(expected) => return Ok(Some(expected.into())),
        };
        let answer = match (command, &mut self.rehearsal) {
            (Command::Open(algebra), _) => self.open(algebra),
            (_, None) => Expected::OpenFirst.into(),
            (Command::Ask(question), Some(rehearsal)) => rehearsal.ask(rt.alloc(), question)?,
            (Command::Do(order), Some(rehearsal)) => numbered(rehearsal.done(order)),
            (Command::Load(path), Some(rehearsal)) => numbered(files::load(
                rt,
                &mut rehearsal.programme,
                path,
            )),
            (Command::Write(path), Some(rehearsal)) => numbered(files::write(
                rt,
                &rehearsal.programme,
                path,
            )),
            (Command::Fits(line), Some(rehearsal)) => rehearsal.fits(rt.alloc(), line)?,
            (Command::List, Some(rehearsal)) => Answer::Listing(listing(
                rt.alloc(),
                &rehearsal.programme,
            )?),
        };
        Ok(Some(answer))
    }

    fn open(&mut self, algebra: House<Standard>) -> Answer {
        self.rehearsal = Some(Rehearsal {
            algebra,
            programme: Programme::open(algebra),
        });
        Answer::Opened(algebra.stamp())
    }
}

// A number, or the answer in its place.
fn numbered(done: Result<usize, Answer>) -> Answer {
    match done {
        Ok(number) => Answer::Number(number),
        Err(answer) => answer,
    }
}

impl Rehearsal {
    fn ask(&self, heap: Global, question: Question) -> Result<Answer, AllocError> {
        match self.readings(question) {
            Ok(set) => Ok(Answer::Letters(spelled(heap, self.algebra.stamp().code, set)?)),
            Err(answer) => Ok(answer),
        }
    }

    fn fits(&self, heap: Global, line: &str) -> Result<Answer, AllocError> {
        let numbers = match read_numbers(heap, line)? {
            Ok(numbers) => numbers,
            // What is not understood has an answer too, so it is no error of this function.
            Err(expected) => return Ok(expected.into()),
        };
        match times::fits(self.algebra, &self.programme, numbers.as_slice()) {
            Ok(unmet) => Ok(Answer::Unmet(unmet)),
            Err(answer) => Ok(answer),
        }
    }

    // The set that is asked for, or the answer in its place.
    fn readings(&self, question: Question) -> Result<ReadingSet, Answer> {
        let set = match question {
            Question::Universe => self.algebra.universe(),
            Question::Converse(set) => self.algebra.converse(self.set(set, Expected::OneSet)?),
            Question::Compose(first, second) => {
                let left = self.set(first, Expected::TwoSets)?;
                let right = self.set(second, Expected::TwoSets)?;
                self.algebra.compose(left, right)
            }
            Question::Look(first, second) => self
                .programme
                .look(self.number(first), self.number(second))?
                .unwrap_or(0),
            Question::Given(first, second) => self
                .programme
                .given(self.number(first), self.number(second))?,
        };
        Ok(set)
    }

    // The number that the programme answers, or the answer in its place.
    fn done(&mut self, order: Order) -> Result<usize, Answer> {
        let call = self.call(order)?;
        Ok(self.programme.perform(call)?)
    }

    fn call<'a>(&self, order: Order<'a>) -> Result<Call<'a>, Expected> {
        match order {
            Order::Entry(name) => Ok(Call::Entry(name)),
            Order::Tie(bond) => Ok(Call::Tie(self.tie(bond)?)),
            Order::Try(bond) => Ok(Call::Try(self.tie(bond)?)),
        }
    }

    fn tie(&self, bond: Bond) -> Result<Tie, Expected> {
        // The set first: where it is none, no name is looked up.
        let mask = self.set(bond.set, Expected::Bond)?;
        Ok(Tie {
            first: self.number(bond.first),
            second: self.number(bond.second),
            mask,
        })
    }

    fn set(&self, word: &str, expected: Expected) -> Result<ReadingSet, Expected> {
        read_set(self.algebra.stamp().code, word).ok_or(expected)
    }

    // The number of the entry with that name, or behind an `@`. A name goes first, if it begins so.
    fn number(&self, word: &str) -> usize {
        (0..self.programme.entries())
            .find(|k| self.programme.name(*k) == Ok(word.as_bytes()))
            .or_else(|| read_number(word))
            .unwrap_or(NO_ENTRY)
    }
}

fn read_number(word: &str) -> Option<usize> {
    let digits = word.strip_prefix("@")?;
    if digits.starts_with('+') {
        return None;
    }
    digits.parse::<usize>().ok()
}
