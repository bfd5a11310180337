// Makes calls in a row on a register, each handed what the last one left, and prints their answers.
#![tactic(auto)]

mod calls;
mod counting;
mod examples;
mod filling;
mod printing;
mod refusals;

use calls::fresh;
use console::Console;
use counting::{at_the_limit, from_nothing};
use examples::{jobs_at_limits, worked_examples};
use filling::{emptied, filled, refilled};
use printing::{print_register, print_state};
use refusals::{by_counts, by_figures, by_jobs, by_turns, looks, of_advances, of_withdrawals};
use std::process::ExitCode;
use workload::refused::{by_last_task, by_messages, by_order};

// One register after the worked examples: each part is handed what the last one left. The tally's parts have registers of their own.
fn main(rt: HostRuntime) -> ExitCode {
    let mut console = Console::new(rt.stdout());
    let out = &mut console;
    worked_examples(out);
    jobs_at_limits(out);
    let mut left = fresh();
    left = by_counts(out, left);
    left = by_figures(out, left);
    // Refusal 3, in the last task of the largest job.
    left = by_jobs(out, left, "figures of tasks", &by_last_task());
    // Refusal 4.
    left = by_jobs(out, left, "messages", &by_messages());
    // Jobs that break two or three rules: the first rule answers.
    left = by_jobs(out, left, "order", &by_order());
    left = by_turns(out, left);
    left = of_withdrawals(out, left);
    looks(out, left);
    left = of_advances(out, left);
    print_register(out, left);
    left = filled(out, left);
    left = refilled(out, left);
    left = emptied(out, left);
    print_state(out, left);
    from_nothing(out);
    at_the_limit(out);
    console.status()
}
