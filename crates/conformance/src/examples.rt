// The examples that document 01 leaves to a program.
use crate::both::{Both, parts_of, same_ratio};
use crate::counts::Counts;
use builder::{alone, task};
use console::Console;
use reference::{Book, Refusal};
use rules::Job;
use tally::Tally;
use workload::examples::one_row;

// A row of the largest cost.
fn costliest(number: u64) -> Job {
    alone(number, task(1_000_000_000, 0, [0, 0, 0, 1_000_000]))
}

// One job of one row more, with what both sides answer.
fn one_more(out: &mut Console, both: &mut Both, number: u64) {
    let held = both.book.rows().len();
    let (ours, theirs) = both.submit(one_row(number)).figures();
    out.println(format_args!(
        "one row more beside {held}: answer={} reference answer={}",
        ours.number, theirs.number
    ));
}

// With 255 rows a job of one row fits, with 256 it is refused 8.
pub fn row_limit(out: &mut Console, counts: &mut Counts) {
    let mut both = Both::new(Book::new(), *counts);
    for number in 1..256 {
        both.submit(one_row(number));
    }
    one_more(out, &mut both, 256);
    one_more(out, &mut both, 257);
    *counts = both.counts;
}

// The total of both sides, which passes 32 bits.
fn print_total(out: &mut Console, both: &Both) {
    let ours = both.register.total();
    let theirs = both.book.total();
    out.println(format_args!("total={ours} reference total={theirs}"));
}

// A full register of the largest costs; then a job is withdrawn, and a hundred end.
pub fn largest_total(out: &mut Console, counts: &mut Counts) {
    let mut both = Both::new(Book::new(), *counts);
    for number in 1..257 {
        both.submit(costliest(number));
    }
    print_total(out, &both);
    both.withdraw(200);
    print_total(out, &both);
    both.advance(100_000_000);
    print_total(out, &both);
    *counts = both.counts;
}

// A ratio as it is printed: by its number, 0 or that of a refusal, and its parts.
fn printed(ratio: Result<u64, Refusal>) -> (u64, u64) {
    match ratio {
        Ok(parts) => (0, parts),
        Err(refusal) => (refusal.number(), 0),
    }
}

fn ratio(out: &mut Console, counts: &mut Counts, tally: Tally) {
    let Tally { arrived, admitted } = tally;
    let (number, parts) = printed(parts_of(tally));
    let theirs = reference::ratio(u64::from(arrived), u64::from(admitted));
    let (other, others) = printed(theirs);
    out.println(format_args!(
        "ratio of {admitted} in {arrived}: number={number} parts={parts} reference number={other} parts={others}"
    ));
    counts.compare(same_ratio(tally, u64::from(arrived), u64::from(admitted)));
}

// Two of three submissions are admitted.
fn ratio_of_calls(out: &mut Console, counts: &mut Counts) {
    let mut both = Both::new(Book::new(), *counts);
    both.submit(one_row(1));
    both.submit(one_row(1));
    both.submit(one_row(2));
    *counts = both.counts;
    ratio(out, counts, both.tally);
}

// That ratio; and 18 where nothing arrived, or less than was admitted.
pub fn ratios(out: &mut Console, counts: &mut Counts) {
    ratio_of_calls(out, counts);
    let pairs = [
        (0, 0),
        (0, 1),
        (2, 3),
        (3, 3),
        (4_294_967_295, 4_294_967_294),
    ];
    for (arrived, admitted) in pairs {
        ratio(out, counts, Tally { arrived, admitted });
    }
}
