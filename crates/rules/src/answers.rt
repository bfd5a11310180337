// What a call answers: an admission or a refusal, and the four figures that say either.
ghost use Rattle.std.specs.Prelude.{◌≡◌};
ghost use Rattle.rules.specs.Answers.{refused, answered};

use crate::Answer;

// Why a call is refused. An infeasible task, and one that misses its deadline at its turn, are named.
#[derive(Clone, Copy, PartialEq, Eq)]
pub enum Refusal {
    NumberOutOfRange,
    Miscounted,
    FigureOutOfRange,
    BadMessages,
    Held,
    Infeasible(u64),
    Missed(u64),
    NoRoom,
    NotHeld,
    Begun,
    ClockBack,
    PastHorizon,
}

// The cost and the count of the rows that a call has added: none for a withdrawal or a clock move.
#[derive(Clone, Copy, PartialEq, Eq, Default)]
pub struct Admission {
    pub cost: u64,
    pub rows: u64,
}

impl Refusal {
    pub fn number(self) -> u64
        ensures { result ≡ (refused self).number }
    {
        match self {
            Refusal::NumberOutOfRange => 1,
            Refusal::Miscounted => 2,
            Refusal::FigureOutOfRange => 3,
            Refusal::BadMessages => 4,
            Refusal::Held => 5,
            Refusal::Infeasible(_) => 6,
            Refusal::Missed(_) => 7,
            Refusal::NoRoom => 8,
            Refusal::NotHeld => 9,
            Refusal::Begun => 10,
            Refusal::ClockBack => 11,
            Refusal::PastHorizon => 12,
        }
    }

    // The task that it names. Document 01 says 0 where it names none.
    pub fn task(self) -> u64
        ensures { result ≡ (refused self).task }
    {
        match self {
            Refusal::Infeasible(task) | Refusal::Missed(task) => task,
            _ => 0,
        }
    }
}

impl From<Result<Admission, Refusal>> for Answer {
    ghost from_gives = { λ outcome answer. answer ≡ answered outcome };

    fn from(outcome: Result<Admission, Refusal>) -> Answer {
        match outcome {
            Ok(Admission { cost, rows }) => Answer {
                number: 0,
                task: 0,
                cost,
                rows,
            },
            Err(refusal) => Answer {
                number: refusal.number(),
                task: refusal.task(),
                cost: 0,
                rows: 0,
            },
        }
    }
}
