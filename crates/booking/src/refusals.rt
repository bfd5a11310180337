// Every refusal, and the calls at the limits beside it, on one register.
use crate::calls::{advance, apply, look, submit, withdraw};
use crate::printing::print_state;
use builder::alone;
use console::Console;
use reservation::Register;
use rules::{Call, Job};
use workload::examples::{job_a, job_h};
use workload::limits::{easy, largest};
use workload::refused;

fn submit_each(out: &mut Console, register: Register, jobs: &[Job]) -> Register {
    let mut left = register;
    for job in jobs {
        left = submit(out, left, *job);
    }
    left
}

// 1 and 2.
pub fn by_counts(out: &mut Console, register: Register) -> Register {
    out.println("numbers and counts");
    let mut left = submit_each(out, register, &refused::by_counts());
    print_state(out, left);
    left = withdraw(out, left, 7);
    print_state(out, left);
    left
}

// 3, and 4 by a volume, beside the largest figures.
pub fn by_figures(out: &mut Console, register: Register) -> Register {
    out.println("figures");
    let mut left = submit(out, register, largest(1_000_000));
    print_state(out, left);
    left = withdraw(out, left, 65_535);
    left = submit_each(out, left, &refused::by_figures());
    print_state(out, left);
    left
}

// Jobs that need no other call between them.
pub fn by_jobs(out: &mut Console, register: Register, name: &str, jobs: &[Job]) -> Register {
    out.println(name);
    let left = submit_each(out, register, jobs);
    print_state(out, left);
    left
}

// 6 names the lowest task, 7 the one at its turn; both compare with the deadline itself.
pub fn by_turns(out: &mut Console, register: Register) -> Register {
    out.println("turns");
    let mut left = submit_each(out, register, &refused::by_turns());
    left = withdraw(out, left, 11);
    left = submit(out, left, refused::pair_with_message());
    print_state(out, left);
    left
}

// 9 and 10.
pub fn of_withdrawals(out: &mut Console, register: Register) -> Register {
    out.println("withdrawals");
    let mut left = withdraw(out, register, 0);
    left = withdraw(out, left, u64::MAX);
    left = withdraw(out, left, 12);
    left = withdraw(out, left, 10);
    left = withdraw(out, left, 7);
    left = submit(out, left, job_h(30, 3));
    left = withdraw(out, left, 1);
    left = submit(out, left, alone(12, easy()));
    print_state(out, left);
    left = advance(out, left, 4);
    of_withdrawals_at_four(out, left)
}

fn of_withdrawals_at_four(out: &mut Console, register: Register) -> Register {
    let mut left = withdraw(out, register, 10);
    left = withdraw(out, left, 8);
    left = withdraw(out, left, 12);
    left = withdraw(out, left, 7);
    print_state(out, left);
    left
}

// Look, and 13.
pub fn looks(out: &mut Console, register: Register) {
    out.println("looks");
    look(out, register, 0, 4);
    look(out, register, 5, 4);
    look(out, register, u64::MAX, u64::MAX);
    look(out, register, 1, 4);
    look(out, register, 1, 10);
    look(out, register, 2, 3);
    look(out, register, 2, 12);
    look(out, register, 3, 4);
    look(out, register, 4, 4);
    look(out, register, 4, u64::MAX);
}

// The clock is moved by the call of any kind.
fn move_to(out: &mut Console, register: Register, tick: u64) -> Register {
    apply(out, register, Call::Advance(tick))
}

// 11 and 12, by the call of any kind.
pub fn of_advances(out: &mut Console, register: Register) -> Register {
    out.println("advances");
    let mut left = move_to(out, register, 3);
    left = move_to(out, left, 4);
    left = move_to(out, left, 1_000_000_001);
    left = move_to(out, left, u64::MAX);
    left = apply(out, left, Call::Submit(job_a(10)));
    left = apply(out, left, Call::Withdraw(7));
    left = move_to(out, left, 15);
    print_state(out, left);
    of_advances_that_empty(out, left)
}

fn of_advances_that_empty(out: &mut Console, register: Register) -> Register {
    let mut left = move_to(out, register, 21);
    print_state(out, left);
    left = apply(out, left, Call::Submit(job_a(40)));
    left = move_to(out, left, 50);
    apply(out, left, Call::Withdraw(7))
}
