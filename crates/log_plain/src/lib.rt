// One call of the walker for callers that have no enums: cursor and command as plain numbers, by value.

#![tactic(auto)]

ghost use Rattle.std.specs.Prelude.{◌≡◌, pos};
ghost use Rattle.log_head.specs.Heads.{no_head};
ghost use Rattle.log_plain.specs.Plain.{cursor_of, plain_of, answer, answer_of, walk_from};

use log_command::Command;
use log_cursor::{Cursor, Phase};
use log_head::Head;

// Where a walk stands: the offset of the next command, and how far the walk is: 0 before the head, 1 among the blocks, 2 after the end,
// any other number after a refusal. Head and blocks count among the blocks alone.
#[repr(C)]
#[derive(Clone, Copy)]
pub struct Place {
    pub at: usize,
    pub phase: u32,
    pub head: Head,
    pub blocks: usize,
}

// What a call of the walker answers: the command's number 1 to 6 with its values, or a refusal with its place, and where the walk then
// stands.
#[repr(C)]
#[derive(Clone, Copy)]
pub struct Walked {
    pub refusal: u32,
    pub place: usize,
    pub command: u32,
    pub head: Head,
    pub dy: i32,
    pub dx: i32,
    pub distortion: u32,
    pub blocks: usize,
    pub next: Place,
}

// The cursor that plain numbers stand for.
fn cursor_of(p: Place) -> Cursor
    ensures { result ≡ cursor_of p }
{
    let at = p.at;
    let phase = p.phase;
    let head = p.head;
    match phase {
        0 => Cursor {
            at,
            phase: Phase::Start,
        },
        1 => Cursor {
            at,
            phase: Phase::Body {
                head,
                blocks: p.blocks,
            },
        },
        2 => Cursor {
            at,
            phase: Phase::Ended,
        },
        _ => Cursor {
            at,
            phase: Phase::Over,
        },
    }
}

// A cursor as plain numbers.
fn plain_of(c: Cursor) -> Place
    ensures { result ≡ plain_of c }
{
    let at = c.at;
    let phase = c.phase;
    match phase {
        Phase::Start => Place {
            at,
            phase: 0,
            head: log_head::no_head(),
            blocks: 0,
        },
        Phase::Body { head, blocks } => Place {
            at,
            phase: 1,
            head,
            blocks,
        },
        Phase::Ended => Place {
            at,
            phase: 2,
            head: log_head::no_head(),
            blocks: 0,
        },
        Phase::Over => Place {
            at,
            phase: 3,
            head: log_head::no_head(),
            blocks: 0,
        },
    }
}

// A command with its values.
fn answer(
    command: u32,
    head: Head,
    dy: i32,
    dx: i32,
    distortion: u32,
    blocks: usize,
    next: Place,
) -> Walked
    ensures { result ≡ answer 0 0 command head dy dx distortion blocks next }
{
    Walked {
        refusal: 0,
        place: 0,
        command,
        head,
        dy,
        dx,
        distortion,
        blocks,
        next,
    }
}

// A refusal with its place.
fn refused_answer(refusal: u32, place: usize, next: Place) -> Walked
    ensures { result ≡ answer refusal place 0 no_head (pos 0) (pos 0) 0 0 next }
{
    Walked {
        refusal,
        place,
        command: 0,
        head: log_head::no_head(),
        dy: 0,
        dx: 0,
        distortion: 0,
        blocks: 0,
        next,
    }
}

// A command's number and values.
fn answer_of(command: Command, next: Place) -> Walked
    ensures { result ≡ answer_of command next }
{
    let said = log_command::command_number(command);
    match command {
        Command::Head(head) => answer(said, head, 0, 0, 0, 0, next),
        Command::Block { dy, dx, distortion } => answer(
            said,
            log_head::no_head(),
            dy,
            dx,
            distortion,
            0,
            next,
        ),
        Command::Still => answer(said, log_head::no_head(), 0, 0, 0, 0, next),
        Command::End(blocks) => answer(said, log_head::no_head(), 0, 0, 0, blocks, next),
        Command::Refused { number, place } => refused_answer(number, place, next),
    }
}

// One call of the walker, from any place.
pub fn walk_from(log: &[u8], p: Place) -> Walked
    ensures { result ≡ walk_from log.now p }
{
    let s = log_cursor::step_at(log, cursor_of(p));
    let command = s.command;
    let next = s.next;
    answer_of(command, plain_of(next))
}
