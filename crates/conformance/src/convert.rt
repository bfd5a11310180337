// What one scheduler says, as the other says it. No `From` can do this: neither type is this crate's, and neither scheduler may know the other.
use reference::{
    Admission, Link, Machine, RefHolder, RefJob, RefMessage, RefRow, RefTask, Refusal,
};
use rules::{Answer, Holder, Job, Message, Row, Seen, Task};

// A job as the second scheduler takes it: the same figures, those past the counts too.
pub fn converted(job: Job) -> RefJob {
    RefJob {
        number: job.number,
        scheduling: job.scheduling,
        taskcount: job.taskcount,
        tasks: job.tasks.map(converted_task),
        messagecount: job.messagecount,
        messages: job.messages.map(converted_message),
    }
}

fn converted_task(task: Task) -> RefTask {
    let runs = task.runs;
    RefTask {
        deadline: task.deadline,
        dispatch: task.dispatch,
        runs: [runs[0], runs[1], runs[2], runs[3]],
    }
}

fn converted_message(message: Message) -> RefMessage {
    let Message {
        sender,
        receiver,
        volume,
    } = message;
    RefMessage {
        sender,
        receiver,
        volume,
    }
}

// An answer of the second scheduler by its four figures.
pub fn figures_of(answer: Result<Admission, Refusal>) -> Answer {
    match answer {
        Ok(Admission { cost, rows }) => Answer {
            number: 0,
            task: 0,
            cost,
            rows,
        },
        Err(refusal) => Answer {
            number: refusal.number(),
            task: refusal.task(),
            cost: 0,
            rows: 0,
        },
    }
}

// A row of the register as the second scheduler holds it, if it is on one of its machines or links.
pub fn converted_row(row: Row) -> Option<RefRow> {
    Some(RefRow {
        holder: converted_holder(row.holder)?,
        job: u64::from(row.job),
        start: u64::from(row.start),
        finish: u64::from(row.finish),
        cost: row.cost,
    })
}

// What a look of ours saw, as the second scheduler answers it, if it could hold the row.
pub fn converted_seen(seen: Seen) -> Option<Result<Option<RefRow>, Refusal>> {
    Some(match seen {
        Seen::Idle => Ok(None),
        Seen::Booked(row) => Ok(Some(converted_row(row)?)),
        Seen::NoMachine => Err(Refusal::NoSuchMachine),
    })
}

fn converted_holder(holder: Holder) -> Option<RefHolder> {
    Some(match holder {
        Holder::TaskOn { machine, task } => RefHolder::Task {
            machine: converted_machine(machine)?,
            task: u64::from(task),
        },
        Holder::MessageOn {
            source,
            target,
            sender,
            receiver,
        } => RefHolder::Message {
            link: Link {
                from: converted_machine(source)?,
                to: converted_machine(target)?,
            },
            sender: u64::from(sender),
            receiver: u64::from(receiver),
        },
    })
}

fn converted_machine(number: u8) -> Option<Machine> {
    Machine::try_from(u64::from(number)).ok()
}
