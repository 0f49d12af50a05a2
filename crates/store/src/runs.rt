//! A list of reads and writes on any store.
ghost use Rattle.std.specs.Prelude.{◌≡◌, map, is_ok, IfOk, All, if◌then◌else◌, vec_len, vec_capacity};
ghost use Rattle.store.specs.Runs.{answered, answer_of, after_step, answers_of, after_of, Remembers, BearsFault};

use crate::step::{Answer, Step};
use crate::store::Store;
use protocol::code::Code;
use std::alloc::{AllocError, Global};

/// Makes one call on a store.
pub fn perform<S: Store>(store: &mut S, step: Step) -> Answer
    ensures answer { answered result ≡ answer_of (S.meaning store.old) step }
    ensures after { S.meaning store.new ≡ after_step (S.meaning store.old) step }
    ensures fault { BearsFault result }
{
    // A call is a value to choose by, and no closure: the law speaks of the calls of a list.
    match step {
        Step::Read(index) => store.read(index).map(Some),
        Step::Write(index, value) => match store.write(index, value) {
            Code::Done => Ok(None),
            code => Err(code),
        },
    }
}

/// Makes the calls in order and tells what each was answered. The memory for the answers is taken first: without it
/// no call is made.
pub fn run<S: Store>(heap: Global, store: &mut S, steps: &[Step]) -> Result<Vec<Answer>, AllocError>
    ensures answers { IfOk result (λ v. map answered v.items ≡ answers_of (S.meaning store.old) steps.now) }
    ensures after { S.meaning store.new ≡ (if is_ok result then after_of (S.meaning store.old) steps.now else S.meaning store.old) }
    ensures remembers { IfOk result (λ v. Remembers (S.meaning store.old) steps.now (map answered v.items) (S.meaning store.new)) }
    ensures faults { IfOk result (λ v. All BearsFault v.items) }
{
    let mut answers = Vec::with_capacity(heap, steps.len())?;
    for step in steps {
        answers.push_reserved(perform(store, *step));
    }
    Ok(answers)
}
