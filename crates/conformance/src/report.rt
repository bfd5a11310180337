// What is printed of the counts. Line by line on the console: a `Display` would need a `?` for each line.
use crate::counts::Counts;
use console::Console;

// What the lists of one shape added.
pub fn print_list(out: &mut Console, name: &str, before: Counts, after: Counts) {
    let calls = after.calls.saturating_sub(before.calls);
    let accepted = after.answers[0].saturating_sub(before.answers[0]);
    let differences = after.differences.saturating_sub(before.differences);
    out.println(format_args!(
        "{name}: calls={calls} accepted={accepted} differences={differences}"
    ));
}

pub fn print_counts(out: &mut Console, counts: Counts) {
    let Counts {
        calls,
        idle,
        booked,
        rows,
        differences,
        ..
    } = counts;
    out.println(format_args!("calls: {calls}"));
    for (number, count) in counts.answers.into_iter().enumerate() {
        out.println(format_args!("answer {number}: {count}"));
    }
    out.println(format_args!("looks that found nothing: {idle}"));
    out.println(format_args!("looks that found a row: {booked}"));
    print_held(out, counts);
    out.println(format_args!("rows compared: {rows}"));
    out.println(format_args!("differences: {differences}"));
}

fn print_held(out: &mut Console, counts: Counts) {
    let Counts {
        most,
        crowded,
        almost_full,
        full,
        ..
    } = counts;
    out.println(format_args!("most rows held: {most}"));
    out.println(format_args!("calls that left more than 200 rows: {crowded}"));
    out.println(format_args!("calls that left 255 rows: {almost_full}"));
    out.println(format_args!("calls that left 256 rows: {full}"));
}
