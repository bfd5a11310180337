// Runs the register and a second scheduler, made independently, side by side on made-up lists of calls, and counts their differences.
#![tactic(auto)]

mod both;
mod calls;
mod compare;
mod convert;
mod counts;
mod examples;
mod lists;
mod report;

use compare::tables_apart;
use console::Console;
use counts::Counts;
use examples::{largest_total, ratios, row_limit};
use lists::{all_lists, with_wrong_link};
use reference::Tables;
use report::print_counts;
use std::process::ExitCode;

fn compare_tables(out: &mut Console, counts: &mut Counts) {
    let apart = tables_apart(&Tables::new());
    out.println(format_args!("differences of the tables: {apart}"));
    counts.differ(apart);
}

fn planted_fault(out: &mut Console) {
    let differences = with_wrong_link().differences;
    out.println(format_args!(
        "with a wrong link time in the reference, differences: {differences}"
    ));
    if differences == 0 {
        out.println("the planted fault was not noticed");
    } else {
        out.println("the planted fault was noticed");
    }
}

fn main(rt: HostRuntime) -> ExitCode {
    let mut console = Console::new(rt.stdout());
    let out = &mut console;
    let mut counts = Counts::default();
    compare_tables(out, &mut counts);
    row_limit(out, &mut counts);
    largest_total(out, &mut counts);
    ratios(out, &mut counts);
    all_lists(out, &mut counts);
    print_counts(out, counts);
    planted_fault(out);
    console.status()
}
