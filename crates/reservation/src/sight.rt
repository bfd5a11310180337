// Look: what stands on a machine at a tick. It changes nothing.
ghost use Rattle.reservation.specs.Calls.{Looks};

use crate::Register;
use rules::{HORIZON, Seen};
use timeline::TICKS;

impl Register {
    // The first span on the timeline that ends after the tick holds it, or none does.
    pub fn look(self, machine: u64, tick: u64) -> Seen
        ensures { Looks self machine tick result }
    {
        if machine < 1 || self.setup.table.machines < machine {
            return Seen::NoMachine;
        }
        if HORIZON < tick {
            return Seen::Idle;
        }
        let place = machine * TICKS + tick;
        // The timetable is copied alone: a loan of a field of `self` would copy the whole register.
        let timetable = self.timetable;
        let line = &timetable.line;
        let at = line.first_after(place);
        if at == line.count() || place < line.span(at).0 {
            return Seen::Idle;
        }
        Seen::Booked(timetable.row(at))
    }
}
