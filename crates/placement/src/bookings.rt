// The two functions that make a booking.
ghost use Rattle.placement.specs.Bookings.{AskTaskBooking, TaskBookingIs, AskMessageBooking, MessageBookingIs};

use drcd::inputs::Input;
use rules::codes::link_number;
use rules::{Holder, Setup};
use timeline::TICKS;
use timeline::bookings::Booking;

// That of a task on a machine, for the run time there.
pub fn task_booking(setup: &Setup, task: u64, machine: u64, start: u64, run: u64) -> Booking
    requires { AskTaskBooking setup.now task machine start run }
    ensures { TaskBookingIs setup.now task machine start run result }
{
    let begin = machine * TICKS + start;
    Booking {
        begin,
        end: begin + run,
        holder: Holder::TaskOn {
            machine: machine as u8,
            task: task as u8,
        },
        cost: setup.rate(machine) * run,
    }
}

// That of a message into a task, on the link from its sender's machine to that of the task.
pub fn message_booking(
    setup: &Setup,
    receiver: u64,
    machine: u64,
    input: &Input,
    start: u64,
) -> Booking
    requires { AskMessageBooking setup.now receiver machine input.now start }
    ensures { MessageBookingIs setup.now receiver machine input.now start result }
{
    let len = setup.link_time(input.source, machine) * input.volume;
    let begin = link_number(input.source, machine) * TICKS + start;
    Booking {
        begin,
        end: begin + len,
        holder: Holder::MessageOn {
            source: input.source as u8,
            target: machine as u8,
            sender: input.sender as u8,
            receiver: receiver as u8,
        },
        cost: setup.link_rate(input.source, machine) * len,
    }
}
