// What a run comes to, by the answers of its calls.
ghost use Rattle.std.specs.Prelude.{◌≡◌, count_by};
ghost use Rattle.runs.specs.Counting.{kind_of, of_kind};

use channel_laws::{Answer, Done};

// The kinds of answers.
#[derive(Clone, Copy, PartialEq, Eq, Debug)]
pub enum Kind {
    Injected,
    Moved,
    Collected,
    Refused,
}

// What kind of answer this is.
impl From<Answer> for Kind {
    ghost from_gives = { λ a k. k ≡ kind_of a };

    fn from(answer: Answer) -> Kind {
        match answer {
            Ok(Done::Injected) => Kind::Injected,
            Ok(Done::Moved) => Kind::Moved,
            Ok(Done::Collected(_)) => Kind::Collected,
            Err(_) => Kind::Refused,
        }
    }
}

// Whether an answer is of a kind. By both at once: to ask for its kind and compare took a sixth more time.
fn is_of(kind: Kind, answer: Answer) -> bool
    ensures { result ≡ of_kind kind answer }
{
    match (kind, answer) {
        (Kind::Injected, Ok(Done::Injected)) => true,
        (Kind::Moved, Ok(Done::Moved)) => true,
        (Kind::Collected, Ok(Done::Collected(_))) => true,
        (Kind::Refused, Err(_)) => true,
        _ => false,
    }
}

// How many answers are of a kind.
pub fn count(kind: Kind, answers: &[Answer]) -> usize
    ensures { result ≡ count_by (of_kind kind) answers.now }
{
    answers
        .iter()
        .filter(|answer| is_of(kind, **answer))
        .count()
}
