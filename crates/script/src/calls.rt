// One call of any kind.
ghost use Rattle.script.specs.Called.{AskCalled, CalledIs};

use crate::acts::Kind;
use admission::submit;
use placement::own::Own;
use rules::answers::{Admission, Refusal};
use rules::{Job, Setup};
use timetable::Timetable;

pub fn called(
    setup: &Setup,
    kind: Kind,
    job: &Job,
    timetable: &mut Timetable,
    own: &mut Own,
) -> Result<Admission, Refusal>
    requires { AskCalled setup.now timetable.old }
    ensures { CalledIs setup.now kind job.now timetable.old timetable.new result }
{
    match kind {
        Kind::Submit => submit(timetable, setup, job, own),
        Kind::Withdraw(number) => timetable.withdraw(number),
        Kind::Advance(tick) => timetable.advance(tick),
    }
}
