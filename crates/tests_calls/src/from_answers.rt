// Outcomes, made of what a call answered.
ghost use Rattle.std.specs.Prelude.{Ok, ◌≡◌};
ghost use Rattle.tests_outcomes.specs.Digests.{digest};
ghost use Rattle.image_form.specs.Image.{low_first};
ghost use Rattle.answers.specs.Numbers.{answer_number};
ghost use Rattle.answers.specs.Answers.{saving_length, sheet_length};
ghost use Rattle.tests_outcomes.specs.Outcomes.{outcome_of};
ghost use Rattle.tests_calls.specs.Calls.{given_outcome, answer_outcome, first_outcome, sheet_counted};

use answers::{Admission, Answer, First, FirstAnswer, Refusal, Saving, SheetAnswer};
use tests_outcomes::Outcome;
use tests_outcomes::digest::Digest;

// Of a call that gave two numbers, or that was refused and gave none.
fn outcome(given: Result<(usize, usize), Refusal>, left: Digest) -> Outcome
    ensures { result ≡ given_outcome left.value given }
{
    match given {
        Ok((a, b)) => Outcome {
            number: 0,
            a: a as u64,
            b: b as u64,
            digest: left.value,
        },
        Err(refusal) => Outcome {
            number: answers::number_of(refusal) as u64,
            a: 0,
            b: 0,
            digest: left.value,
        },
    }
}

// What a search of a text or a chunk answered.
pub fn answered(answer: Answer, left: Digest) -> Outcome
    ensures { result ≡ answer_outcome left.value answer }
{
    outcome(
        answer.map(|counts| (counts.found, counts.inspections)),
        left,
    )
}

// What open, set method, load and resent answered.
pub fn admitted(admission: Admission, left: Digest) -> Outcome
    ensures { result ≡ outcome_of (answer_number admission) 0 0 left.value }
{
    outcome(admission.map(|_| (0, 0)), left)
}

// What save answered.
pub fn saved(saving: Saving, left: Digest) -> Outcome
    ensures { result ≡ outcome_of (answer_number saving) (saving_length saving) 0 left.value }
{
    outcome(saving.map(|len| (len, 0)), left)
}

// What a search with its marked sheet answered, after a list and a buffer with this digest. An outcome has no third number, so the sheet's length is
// digested.
pub fn marked(answer: SheetAnswer, left: Digest) -> Outcome
    ensures { result ≡ sheet_counted (digest left.value (low_first 8 (sheet_length answer))) answer }
{
    let len = match answer {
        Ok(counts) => counts.len,
        Err(_) => 0,
    };
    outcome(
        answer.map(|counts| (counts.found, counts.inspections)),
        left.number(len as u64, 8),
    )
}

// What a search for the first match came to: 1 where there is one, and the inspections. The position, for which no number is left, is digested; it
// counts as 0 where there is none.
fn first_found(first: First) -> Outcome
    ensures { result ≡ first_outcome (Ok first) }
{
    match first.position {
        Some(position) => outcome(
            Ok((1, first.inspections)),
            Digest::new().number(position as u64, 8),
        ),
        None => outcome(Ok((0, first.inspections)), Digest::new().number(0, 8)),
    }
}

// What it answered.
pub fn first_answered(answer: FirstAnswer) -> Outcome
    ensures { result ≡ first_outcome answer }
{
    match answer {
        Ok(first) => first_found(first),
        Err(refusal) => outcome(Err(refusal), Digest::new().number(0, 8)),
    }
}
