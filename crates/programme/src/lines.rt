// Lines: calls as values, and what performs a line of turns of any kind.
ghost use Rattle.std.specs.Prelude.{◌≡◌, ◌≢◌, true, false, map, length, Some, None, Decides};
ghost use Rattle.algebra.specs.Meaning.{Meaning};
ghost use Rattle.programme.specs.declared.sheets.Sheet.{Sheet};
ghost use Rattle.programme.specs.Line.{Line};
ghost use Rattle.programme.specs.Kept.{Keeps};
ghost use Rattle.programme.specs.Performed.{ask_of, FromBlank};

use crate::programmes::Programme;
use crate::refusals::Refusal;
use crate::ties::Tie;
use algebra::Algebra;

/// A call as a value, so that a line of them can be kept and performed.
#[derive(Clone, Copy)]
pub enum Call<'a> {
    Entry(&'a [u8]),
    Tie(Tie),
    Try(Tie),
}

impl<B: Algebra> Programme<B> {
    /// Makes the call, and answers as it does.
    pub fn perform(&mut self, call: Call<'_>) -> Result<usize, Refusal>
        ensures lent { self.new.algebra ≡ self.old.algebra }
        ensures kept { Keeps (B.Algebra.meaning self.old.algebra) self.old.sheet
            (ask_of call.entry) result self.new.sheet }
    {
        // Calls are values, which a line keeps and a ledger is asked by, so a match tells them apart.
        match call {
            Call::Entry(name) => self.entry(name),
            Call::Tie(asked) => self.tie(asked),
            Call::Try(asked) => self.try_tie(asked),
        }
    }
}

/// What is asked of a programme in one turn of a line.
pub trait Turn<B: Algebra>: Copy {
    type Answer: Drop;

    /// The turn on one sheet is answered so, and leads to the other.
    ghost keeps: { Meaning → Sheet → Self → Self.Answer → Sheet → Type 0 };

    /// Does what is asked, and answers it.
    fn perform(self, programme: &mut Programme<B>) -> Self::Answer
        ensures lent { programme.new.algebra ≡ programme.old.algebra }
        ensures kept { keeps (B.Algebra.meaning programme.old.algebra) programme.old.sheet
            self result programme.new.sheet };
}

impl<'a, B: Algebra> Turn<B> for Call<'a> {
    type Answer = Result<usize, Refusal>;

    ghost keeps = { λ m s call r t. Keeps m s (ask_of call) r t };

    fn perform(self, programme: &mut Programme<B>) -> Result<usize, Refusal> {
        programme.perform(self)
    }
}

/// Performs the turns in order and records each answer at its place. Does nothing, and says so, where there is another number of
/// places than of turns.
// Two slices: there is no heap here for a list of the answers.
pub fn perform_each<B: Algebra, T: Turn<B>>(
    programme: &mut Programme<B>,
    turns: &[T],
    answers: &mut [T::Answer],
) -> bool
    ensures fits { Decides result (length turns.now ≡ length answers.old) }
    ensures lent { programme.new.algebra ≡ programme.old.algebra }
    ensures other { result ≡ false → (programme.new ≡ programme.old) × (answers.new ≡ answers.old) }
    ensures line { result ≡ true →
        Line (T.keeps (B.Algebra.meaning programme.old.algebra))
        programme.old.sheet turns.now answers.new programme.new.sheet }
{
    if turns.len() != answers.len() {
        return false;
    }
    // By place: what is written through a zip of `iter_mut` is not known behind the loop.
    for k in 0..turns.len() {
        answers[k] = turns[k].perform(programme);
    }
    true
}

/// Opens a programme, performs the calls in order and records each answer at its place. There must be one place for each call.
pub fn run<B: Algebra + Drop>(
    algebra: B,
    calls: &[Call<'_>],
    answers: &mut [Result<usize, Refusal>],
) -> Option<Programme<B>>
    ensures fits { elim result [
      | None ↦ length calls.now ≢ length answers.old
      | Some p ↦ length calls.now ≡ length answers.old
    ] }
    ensures lent { elim result [
      | None ↦ answers.new ≡ answers.old
      | Some p ↦ p.algebra ≡ algebra
    ] }
    ensures line { elim result [
      | None ↦ Unit {0}
      | Some p ↦ FromBlank (B.Algebra.meaning algebra) (map ask_of calls.now) answers.new p.sheet
    ] }
{
    // Before anything is opened, so that a wrong count costs nothing.
    if calls.len() != answers.len() {
        return None;
    }
    let mut programme = Programme::open(algebra);
    perform_each(&mut programme, calls, answers);
    Some(programme)
}
