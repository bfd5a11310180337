// A register and a book side by side: each call is made on both, and what they answer and hold after it is compared.
use crate::calls::Made;
use crate::compare::{Answers, rows_apart, same_seen, states_apart};
use crate::convert::converted;
use crate::counts::Counts;
use reference::{Admission, Book, Refusal};
use reservation::{Register, Reply};
use rules::{Answer, Job};
use tally::{Tally, guarantee_ratio};

#[derive(Clone, Copy)]
pub struct Both {
    pub register: Register,
    pub book: Book,
    pub counts: Counts,
    // The submissions that arrived and those admitted, counted on each side.
    pub tally: Tally,
    pub arrived: u64,
    pub admitted: u64,
}

impl Both {
    // A fresh register beside this book. What is counted goes on from the counts given.
    pub fn new(book: Book, counts: Counts) -> Self {
        Both {
            register: Register::new(),
            book,
            counts,
            tally: Tally::default(),
            arrived: 0,
            admitted: 0,
        }
    }

    pub fn make(&mut self, call: Made) {
        match call {
            Made::Submit(job) => {
                self.submit(job);
            }
            Made::Withdraw(number) => self.withdraw(number),
            Made::Advance(tick) => self.advance(tick),
            Made::Look { machine, tick } => self.look(machine, tick),
        }
    }

    pub fn submit(&mut self, job: Job) -> Answers {
        let theirs = self.book.submit(&converted(job));
        let reply = self.register.submit(job);
        let answers = self.settled(reply, theirs);
        self.tally = self.tally.counted(answers.ours.is_ok());
        self.arrived = self.arrived.saturating_add(1);
        if answers.theirs.is_ok() {
            self.admitted = self.admitted.saturating_add(1);
        }
        answers
    }

    // This and the next are alike: one function for both would save a line, and take two closures.
    pub fn withdraw(&mut self, number: u64) {
        let theirs = self.book.withdraw(number);
        let reply = self.register.withdraw(number);
        self.settled(reply, theirs.map(|()| Admission::default()));
    }

    pub fn advance(&mut self, tick: u64) {
        let theirs = self.book.advance(tick);
        let reply = self.register.advance(tick);
        self.settled(reply, theirs.map(|()| Admission::default()));
    }

    // Both sides have answered.
    fn settled(&mut self, reply: Reply, theirs: Result<Admission, Refusal>) -> Answers {
        let Reply { answer, register } = reply;
        let answers = Answers {
            ours: answer,
            theirs,
        };
        self.register = register;
        let held = register.count().max(self.book.rows().len());
        self.counts.answer(Answer::from(answer).number);
        self.counts.hold(held as u64);
        self.counts.differ(states_apart(register, &self.book));
        self.counts.differ(rows_apart(register, &self.book, held));
        self.counts.compare(answers.agree());
        answers
    }

    pub fn look(&mut self, machine: u64, tick: u64) {
        let seen = self.register.look(machine, tick);
        self.counts.see(seen);
        self.counts
            .compare(same_seen(seen, self.book.look(machine, tick)));
    }

    pub fn compare_ratios(&mut self) {
        self.counts
            .compare(same_ratio(self.tally, self.arrived, self.admitted));
    }
}

// The ratio of the register's side, as the other side gives it.
pub fn parts_of(tally: Tally) -> Result<u64, Refusal> {
    guarantee_ratio(tally).ok_or(Refusal::NoRatio)
}

pub fn same_ratio(tally: Tally, arrived: u64, admitted: u64) -> bool {
    parts_of(tally) == reference::ratio(arrived, admitted)
}
