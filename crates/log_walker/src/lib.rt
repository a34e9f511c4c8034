// The walker: a lent log and a cursor. One command a call.

#![tactic(auto)]

ghost use Rattle.std.specs.Prelude.{◌≡◌};
ghost use Rattle.log_cursor.specs.Step.{start_cursor};
ghost use Rattle.log_walker.specs.Walkers.{next_command, next_walker};

use log_command::Command;
use log_cursor::Cursor;

// A log that is walked, and where the walk stands.
#[derive(Clone, Copy)]
pub struct Walker<'a> {
    pub log: &'a [u8],
    pub cursor: Cursor,
}

// A new walker, at the log's start.
pub fn walk<'a>(log: &'a [u8]) -> Walker<'a>
    ensures { (result.log ≡ log.entry) × (result.cursor ≡ start_cursor) }
{
    Walker {
        log,
        cursor: log_cursor::start(),
    }
}

impl<'a> Walker<'a> {
    // Hands out one command; the walker then stands after it.
    pub fn next(&mut self) -> Command
        ensures { (result ≡ next_command self.old) × (self.new ≡ next_walker self.old) }
    {
        let s = log_cursor::step_at(self.log, self.cursor);
        self.cursor = s.next;
        s.command
    }
}
