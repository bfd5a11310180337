// What a job lists: entries of its arrays past the counts are no part of it.
ghost use Rattle.std.specs.Prelude.{◌≡◌, ◌≤◌, length, take};
ghost use Rattle.rules.specs.Words.{most_messages, most_tasks, messages_of};

use crate::{Job, Message, Task};

impl Job {
    pub fn tasks(&self) -> &[Task]
        requires { self.now.taskcount ≤ most_tasks }
        ensures listed { result.now ≡ take self.now.taskcount self.now.tasks }
        ensures long { length result.now ≡ self.now.taskcount }
    {
        &self.tasks[..self.taskcount as usize]
    }

    pub fn messages(&self) -> &[Message]
        requires { self.now.messagecount ≤ most_messages }
        ensures { result.now ≡ messages_of self.now }
    {
        &self.messages[..self.messagecount as usize]
    }
}
