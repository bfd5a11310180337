// Calls that print their answers and hand on the register that they leave. What a refusal leaves is checked.
#![tactic(auto, using(crate::proofs::Leaving::untouched_by))]

ghost use Rattle.booking.specs.Untouched.{Untouched};

use crate::printing::{print_answer, print_seen};
use console::Console;
use reservation::{Register, Reply};
use rules::{Answer, Call, Job};

// A fresh register has clock 0, total 0 and no rows.
pub fn fresh() -> Register {
    let register = Register::new();
    prove!(register.clock() == 0);
    prove!(register.total() == 0);
    prove!(register.count() == 0);
    register
}

// Prints the answer to a call, and hands on the register that it leaves. A refusal leaves the clock, the total and the count as they were.
fn answered(out: &mut Console, before: Register, reply: Reply) -> Register
    requires { Untouched before reply }
{
    let Reply { answer, register } = reply;
    print_answer(out, Answer::from(answer));
    if answer.is_err() {
        prove!(register.clock() == before.clock());
        prove!(register.total() == before.total());
        prove!(register.count() == before.count());
    }
    register
}

pub fn submit(out: &mut Console, register: Register, job: Job) -> Register {
    answered(out, register, register.submit(job))
}

pub fn withdraw(out: &mut Console, register: Register, number: u64) -> Register {
    answered(out, register, register.withdraw(number))
}

pub fn advance(out: &mut Console, register: Register, tick: u64) -> Register {
    answered(out, register, register.advance(tick))
}

pub fn apply(out: &mut Console, register: Register, call: Call) -> Register {
    answered(out, register, register.apply(call))
}

pub fn look(out: &mut Console, register: Register, machine: u64, tick: u64) {
    print_seen(out, register.look(machine, tick));
}
