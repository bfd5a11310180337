// What is printed: a line for each call, row and register. No `Display` does this: a program may not write it for the types of another crate.
use console::Console;
use reservation::Register;
use rules::{Answer, Holder, Row, Seen};

pub fn print_answer(out: &mut Console, answer: Answer) {
    let Answer {
        number,
        task,
        cost,
        rows,
    } = answer;
    out.println(format_args!("answer={number} task={task} cost={cost} rows={rows}"));
}

fn print_holder(out: &mut Console, holder: Holder, job: u16) {
    match holder {
        Holder::TaskOn { machine, task } => {
            out.print(format_args!("machine={machine} job={job} task={task}"));
        }
        Holder::MessageOn {
            source,
            target,
            sender,
            receiver,
        } => {
            out.print(format_args!(
                "link={source} to={target} job={job} from={sender} task={receiver}"
            ));
        }
    }
}

fn print_row(out: &mut Console, row: Row) {
    let Row {
        holder,
        job,
        start,
        finish,
        cost,
    } = row;
    print_holder(out, holder, job);
    out.println(format_args!(" start={start} finish={finish} cost={cost}"));
}

pub fn print_seen(out: &mut Console, seen: Seen) {
    match seen {
        Seen::Idle => out.println("idle"),
        Seen::Booked(row) => print_row(out, row),
        Seen::NoMachine => out.println("answer=13"),
    }
}

// The clock, the total and the count of rows.
pub fn print_state(out: &mut Console, register: Register) {
    let clock = register.clock();
    let total = register.total();
    let held = register.count();
    out.println(format_args!("clock={clock} total={total} held={held}"));
}

// The same, then the rows in the order in which they are held.
pub fn print_register(out: &mut Console, register: Register) {
    print_state(out, register);
    for row in register.rows().iter().take(register.count()) {
        print_row(out, *row);
    }
}
