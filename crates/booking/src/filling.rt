// A register that is filled, freed in part and filled again.
use crate::calls::{advance, submit, withdraw};
use crate::printing::{print_answer, print_state};
use builder::{alone, task};
use console::Console;
use reservation::{Register, Reply};
use rules::Answer;
use workload::examples::{one_row, three_rows};

// Jobs of one row, with the numbers from `first` up to `end` and not `end`, or up to the first that is refused, whose answer is printed.
fn fill(out: &mut Console, register: Register, first: u64, end: u64) -> Register {
    let mut left = register;
    for number in first..end {
        let Reply { answer, register } = left.submit(one_row(number));
        left = register;
        if answer.is_err() {
            print_answer(out, Answer::from(answer));
            break;
        }
    }
    left
}

// 8: with 255 rows a job of one row fits, with 256 it does not.
pub fn filled(out: &mut Console, register: Register) -> Register {
    out.println("filled");
    let mut left = fill(out, register, 1, 255);
    print_state(out, left);
    left = submit(out, left, three_rows(1_000));
    left = submit(out, left, one_row(255));
    print_state(out, left);
    left = submit(out, left, three_rows(1_000));
    left = submit(out, left, one_row(256));
    print_state(out, left);
    left = submit(out, left, one_row(257));
    left = submit(out, left, one_row(256));
    left = submit(out, left, alone(257, task(60, 11, [1, 0, 0, 0])));
    left = submit(out, left, alone(257, task(60, 0, [11, 0, 0, 0])));
    print_state(out, left);
    left
}

// Freed rows serve later jobs.
pub fn refilled(out: &mut Console, register: Register) -> Register {
    out.println("refilled");
    let mut left = withdraw(out, register, 1);
    left = withdraw(out, left, 128);
    left = withdraw(out, left, 256);
    print_state(out, left);
    left = submit(out, left, three_rows(1_000));
    print_state(out, left);
    left = submit(out, left, one_row(257));
    left = advance(out, left, 100);
    print_state(out, left);
    left = fill(out, left, 1_001, 2_000);
    print_state(out, left);
    left = advance(out, left, 200);
    print_state(out, left);
    left = withdraw(out, left, 1_000);
    left = fill(out, left, 2_001, 3_000);
    print_state(out, left);
    left
}

pub fn emptied(out: &mut Console, register: Register) -> Register {
    out.println("emptied");
    let mut left = advance(out, register, 999_999_999);
    print_state(out, left);
    left = submit(out, left, alone(1, task(1_000_000_000, 0, [1, 0, 0, 0])));
    left = submit(out, left, alone(2, task(1_000_000_000, 0, [1, 0, 0, 0])));
    left = advance(out, left, 1_000_000_000);
    left = submit(out, left, alone(1, task(1_000_000_000, 0, [1, 0, 0, 0])));
    left = advance(out, left, 1_000_000_000);
    left = advance(out, left, 999_999_999);
    left
}
