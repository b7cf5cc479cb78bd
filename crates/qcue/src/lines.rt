// Lines of calls, loads among them.
ghost use Rattle.std.specs.Prelude.{◌≡◌, ◌≢◌, map, length, Some, None};
ghost use Rattle.qcue.specs.Performed.{turn_of, TurnKeeps, FromBlank};

use crate::loading::load;
use crate::refusals::Fault;
use algebra::Algebra;
use programme::{Call, Programme, Refusal, Turn};

/// What a line asks for in one turn.
#[derive(Clone, Copy)]
pub enum Request<'a> {
    Call(Call<'a>),
    Load(&'a [u8]),
}

/// What is answered to it.
#[derive(Clone, Copy)]
pub enum Answer {
    Call(Result<usize, Refusal>),
    Load(Result<usize, Fault>),
}

/// Does what is requested, and answers it.
pub fn perform<B: Algebra + Copy>(programme: &mut Programme<B>, request: Request<'_>) -> Answer
    ensures lent { programme.new.algebra ≡ programme.old.algebra }
    ensures kept { TurnKeeps (B.Algebra.meaning programme.old.algebra) programme.old.sheet
        (turn_of request.entry) result programme.new.sheet }
{
    // Requests are values, which a line keeps, so a match tells them apart.
    match request {
        Request::Call(call) => Answer::Call(programme.perform(call)),
        Request::Load(bytes) => Answer::Load(load(programme, bytes)),
    }
}

impl<'a, B: Algebra + Copy> Turn<B> for Request<'a> {
    type Answer = Answer;

    ghost keeps = { λ m s request r t. TurnKeeps m s (turn_of request) r t };

    fn perform(self, programme: &mut Programme<B>) -> Answer {
        perform(programme, self)
    }
}

/// Opens a programme, performs the requests in order and records each answer at its place. There must be one place for each.
// A loop of its own, and not `perform_each`: so a slip in which request is performed is refused here by what the line says.
pub fn run<B: Algebra + Copy>(
    algebra: B,
    requests: &[Request<'_>],
    answers: &mut [Answer],
) -> Option<Programme<B>>
    ensures fits { elim result [
      | None ↦ length requests.now ≢ length answers.old
      | Some p ↦ length requests.now ≡ length answers.old
    ] }
    ensures lent { elim result [
      | None ↦ answers.new ≡ answers.old
      | Some p ↦ p.algebra ≡ algebra
    ] }
    ensures line { elim result [
      | None ↦ Unit {0}
      | Some p ↦ FromBlank (B.Algebra.meaning algebra) (map turn_of requests.now) answers.new p.sheet
    ] }
{
    if requests.len() != answers.len() {
        return None;
    }
    let mut programme = Programme::open(algebra);
    for k in 0..requests.len() {
        answers[k] = perform(&mut programme, requests[k]);
    }
    Some(programme)
}
