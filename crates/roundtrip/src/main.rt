// Reads each job text of standard input, writes the job again and compares every byte: into buffers of no byte, one too few, exactly enough and one more; then
// the job with figures and counts at their limits and past them.
#![tactic(auto)]

mod jobs;
mod writing;

use jobs::checked;
use std::io;
use std::io::Read;
use texts::job::read_job;
use writing::Count;

// The texts, one after the other: each ends where the next begins.
fn check_all(rt: &impl Print, text: &[u8]) -> io::Result<()> {
    let mut rest = text;
    let mut jobs: u64 = 0;
    let mut count = Count::default();
    while !rest.is_empty() {
        let Ok(read) = read_job(rest) else {
            return println!(rt; "a text cannot be read");
        };
        let (first, after) = rest.split_at(read.next);
        checked(&read.value, first, &mut count);
        jobs += 1;
        rest = after;
    }
    println!(rt; "jobs={jobs}")?;
    println!(rt; "tried={}", count.tried)?;
    println!(rt; "different={}", count.different)
}

fn main(rt: HostRuntime) -> io::Result<()> {
    let mut text = Vec::new(rt.alloc());
    rt.stdin().read_to_end(&mut text)?;
    check_all(&rt, &text)
}
