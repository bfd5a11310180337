// Why a call is refused.

#[derive(Clone, Copy, PartialEq, Eq)]
pub enum Refusal {
    NumberOutOfRange,
    CountOutOfRange,
    FigureOutOfRange,
    WrongMessage,
    AlreadyHeld,
    // This one and the next name the task.
    HopelessTask(u64),
    LateTask(u64),
    TooManyRows,
    NotHeld,
    AlreadyBegun,
    BeforeClock,
    AfterHorizon,
    NoSuchMachine,
    NoRatio,
}

impl Refusal {
    // The number that document 01 gives it.
    pub fn number(self) -> u64 {
        match self {
            Refusal::NumberOutOfRange => 1,
            Refusal::CountOutOfRange => 2,
            Refusal::FigureOutOfRange => 3,
            Refusal::WrongMessage => 4,
            Refusal::AlreadyHeld => 5,
            Refusal::HopelessTask(_) => 6,
            Refusal::LateTask(_) => 7,
            Refusal::TooManyRows => 8,
            Refusal::NotHeld => 9,
            Refusal::AlreadyBegun => 10,
            Refusal::BeforeClock => 11,
            Refusal::AfterHorizon => 12,
            Refusal::NoSuchMachine => 13,
            Refusal::NoRatio => 18,
        }
    }

    // The task that it names, or 0.
    pub fn task(self) -> u64 {
        match self {
            Refusal::HopelessTask(task) | Refusal::LateTask(task) => task,
            _ => 0,
        }
    }
}
