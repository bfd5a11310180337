// The bytes of an answer, one field a line.
ghost use Rattle.std.specs.Prelude.{◌+◌, ◌≤◌, length};
ghost use Rattle.lines.specs.Figures.{field};
ghost use Rattle.script.specs.Replies.{submission_reply, answer_key};
ghost use Rattle.script.specs.Parts.{PutsAtMost, most_reply, most_answer, PutsReply};

use crate::acts::Kind;
use crate::output::put_any_field;
use rules::Answer;

fn put_submitted(output: &mut [u8], at: usize, answer: Answer) -> usize
    requires { at + most_reply ≤ length output.old }
    ensures { PutsAtMost output.old at (submission_reply answer) output.new result most_reply }
{
    let at1 = put_any_field(output, at, b"answer=", answer.number);
    let at2 = put_any_field(output, at1, b"task=", answer.task);
    let at3 = put_any_field(output, at2, b"cost=", answer.cost);
    put_any_field(output, at3, b"rows=", answer.rows)
}

// Withdrawals and clock moves print `answer` only.
fn put_number(output: &mut [u8], at: usize, number: u64) -> usize
    requires { at + most_answer ≤ length output.old }
    ensures { PutsAtMost output.old at (field answer_key number) output.new result most_answer }
{
    put_any_field(output, at, b"answer=", number)
}

// The reply to a call.
pub fn put_reply(output: &mut [u8], at: usize, kind: Kind, answer: Answer) -> usize
    requires { at + most_reply ≤ length output.old }
    ensures { PutsReply output.old at kind answer output.new result }
{
    match kind {
        Kind::Submit => put_submitted(output, at, answer),
        Kind::Withdraw(_) | Kind::Advance(_) => put_number(output, at, answer.number),
    }
}
