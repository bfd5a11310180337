// The worked examples of document 01, and jobs at the limits.
use crate::calls::{advance, fresh, submit, withdraw};
use crate::printing::print_register;
use builder::{alone, alone_after, task};
use console::Console;
use rules::Job;
use workload::examples::{job_a, job_e, job_h, job_k};
use workload::limits::{largest, sixteen};

// A job in a fresh register.
fn shown(out: &mut Console, name: &str, job: Job) {
    out.println(name);
    let left = submit(out, fresh(), job);
    print_register(out, left);
}

fn shown_after_b(out: &mut Console, name: &str, job: Job) {
    out.println(name);
    let with_b = submit(out, fresh(), job_a(5));
    let with_both = submit(out, with_b, job);
    print_register(out, with_both);
}

// F and G: the least tick for so many on machine 1, beside rows 1 to 5 and 9 to 12.
fn shown_least(out: &mut Console, name: &str, len: u64) {
    out.println(name);
    let with_b = submit(out, fresh(), job_a(5));
    let with_both = submit(out, with_b, alone_after(9, 9, task(12, 0, [3, 0, 0, 0])));
    let with_all = submit(out, with_both, alone(8, task(1_000, 0, [len, 0, 0, 0])));
    print_register(out, with_all);
}

// K beside B's row and one on machine 2.
fn shown_k_beside(out: &mut Console) {
    out.println("K-beside-two-rows");
    let with_b = submit(out, fresh(), job_a(5));
    let with_both = submit(out, with_b, alone_after(6, 15, task(20, 0, [0, 5, 0, 0])));
    let with_all = submit(out, with_both, job_k(8));
    print_register(out, with_all);
}

// L: A is withdrawn at clock 0, and again, when it has begun, and when it has ended.
fn shown_l(out: &mut Console) {
    out.println("L");
    let with_a = submit(out, fresh(), job_a(10));
    let without_a = withdraw(out, with_a, 7);
    let again = submit(out, without_a, job_a(10));
    let begun = advance(out, again, 1);
    let refused = withdraw(out, begun, 7);
    print_register(out, refused);
    let ended = advance(out, refused, 6);
    let without = withdraw(out, ended, 7);
    print_register(out, without);
}

// One task.
fn of_one_task(out: &mut Console) {
    shown(out, "A", job_a(10));
    shown(out, "B", job_a(5));
    shown(out, "C", job_a(2));
    shown(out, "D", job_a(1));
    shown_after_b(out, "E", job_e());
    shown_least(out, "F", 4);
    shown_least(out, "G", 5);
}

// Tasks that send to each other.
fn of_messages(out: &mut Console) {
    shown(out, "H", job_h(16, 3));
    shown(out, "I", job_h(15, 3));
    shown(out, "J", job_h(16, 0));
    shown(out, "K", job_k(7));
    shown_k_beside(out);
}

pub fn worked_examples(out: &mut Console) {
    of_one_task(out);
    of_messages(out);
    shown_l(out);
}

pub fn jobs_at_limits(out: &mut Console) {
    shown(out, "sixteen", sixteen());
    shown(out, "largest", largest(1_000_000));
}
