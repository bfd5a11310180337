// Submissions in a row with one tally: its counters and their ratio before the first and after each.
use crate::calls::fresh;
use crate::printing::print_answer;
use builder::alone;
use console::Console;
use rules::{Answer, Job};
use tally::{Tally, guarantee_ratio, submit_counted};
use workload::limits::easy;
use workload::refused::unrunnable;

// The most that a counter holds.
const MOST: u32 = u32::MAX;

fn print_tally(out: &mut Console, tally: Tally) {
    let Tally { arrived, admitted } = tally;
    out.print(format_args!("arrived={arrived} admitted={admitted}"));
    match guarantee_ratio(tally) {
        Some(parts) => out.println(format_args!(" ratio={parts}")),
        None => out.println(" refused=18"),
    }
}

// Submits the jobs to a fresh register, from these counters on. Each submission is handed the tally and the register that the last one left.
fn counted(out: &mut Console, arrived: u32, admitted: u32, jobs: &[Job]) {
    let mut tally = Tally { arrived, admitted };
    let mut register = fresh();
    print_tally(out, tally);
    for job in jobs {
        let reply = submit_counted(&mut tally, register, *job);
        print_answer(out, Answer::from(reply.answer));
        print_tally(out, tally);
        register = reply.register;
    }
}

// Submissions that are accepted, refused 5, accepted, refused 1, refused 6 and accepted.
pub fn from_nothing(out: &mut Console) {
    out.println("tally");
    let jobs = [
        alone(7, easy()),
        alone(7, easy()),
        alone(8, easy()),
        alone(0, easy()),
        alone(9, unrunnable()),
        alone(9, easy()),
    ];
    counted(out, 0, 0, &jobs);
}

// With either counter at its limit neither moves; one below it they move once.
pub fn at_the_limit(out: &mut Console) {
    out.println("tally at its limit");
    counted(out, MOST, 0, &[alone(7, easy())]);
    counted(out, 5, MOST, &[alone(7, easy())]);
    let accepted = [alone(7, easy()), alone(8, easy())];
    let one_refused = [alone(0, easy()), alone(8, easy())];
    counted(out, MOST - 1, MOST - 1, &accepted);
    counted(out, MOST - 1, MOST - 1, &one_refused);
    counted(out, 7, MOST - 1, &accepted);
}
