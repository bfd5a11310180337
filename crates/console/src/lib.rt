// Standard output for the programs that compare. Each prints all that it has to, and whether all of it was written shows in its exit status.
#![tactic(auto)]

ghost use Rattle.std.specs.Prelude.{◌≡◌, IsTrue, false, if◌then◌else◌};
ghost use Rattle.std.specs.Process.{exit_status};

use std::fmt::Display;
use std::io::{Print, Stdout};
use std::process::ExitCode;

#[derive(Drop)]
pub struct Console {
    to: Stdout,
    // Whether something could not be written. The stream stays in use then, so this is a flag and no `Result` round it.
    pub failed: bool,
}

impl Console {
    pub fn new(to: Stdout) -> Console
        ensures { result.failed ≡ false }
    {
        Console { to, failed: false }
    }

    pub fn print<D: Display + Drop>(&mut self, text: D)
        ensures { IsTrue self.old.failed → IsTrue self.new.failed }
    {
        self.failed |= self.to.print(text).is_err();
    }

    pub fn println<D: Display + Drop>(&mut self, text: D)
        ensures { IsTrue self.old.failed → IsTrue self.new.failed }
    {
        self.failed |= self.to.println(text).is_err();
    }

    // Bytes as they are.
    pub fn write(&mut self, bytes: &[u8])
        ensures { IsTrue self.old.failed → IsTrue self.new.failed }
    {
        self.failed |= self.to.write_all(bytes).is_err();
    }

    // What the program ends with: a failure if anything was not written.
    pub fn status(&self) -> ExitCode
        ensures { exit_status result ≡ (if self.now.failed then 1 else 0) }
    {
        if self.failed {
            ExitCode::FAILURE
        } else {
            ExitCode::SUCCESS
        }
    }
}
