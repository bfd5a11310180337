// One call of any kind, applied to a register.
ghost use Rattle.reservation.specs.Calls.{Steps};
ghost use Rattle.rules.specs.Kinds.{call_of};

use crate::{Register, Reply};
use rules::Call;

impl Register {
    pub fn apply(self, call: Call) -> Reply
        ensures { Steps self (call_of call) result }
    {
        match call {
            Call::Submit(job) => self.submit(job),
            Call::Withdraw(number) => self.withdraw(number),
            Call::Advance(tick) => self.advance(tick),
        }
    }
}
