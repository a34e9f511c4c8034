// Reads a whole log into a lent list, three numbers a block. Nothing is stored before the whole log is accepted.

#![tactic(auto)]

ghost use Rattle.std.specs.Prelude.{◌≡◌, [], ◌∷◌, ◌++◌, ◌+◌, ◌≤◌, pos, length, drop};
ghost use Rattle.put.specs.Put.{Put};
ghost use Rattle.log_head.specs.Heads.{largest_logged};
ghost use Rattle.log_command.specs.Commands.{block_values};
ghost use Rattle.log_cursor.specs.Walk.{walk, last_of};
ghost use Rattle.log_reading.specs.Reading.{field_of, refused_read, refused_by, log_read, read_result, read_log};
ghost use Rattle.log_reading.specs.Storing.{stored_distortion};

use log_command::Command;
use log_head::Head;

// What reading answers: the head's numbers, its measure too, or a refusal with its place.
#[repr(C)]
#[derive(Clone, Copy)]
pub struct LogRead {
    pub refusal: u32,
    pub place: usize,
    pub head: Head,
}

fn refused_read(refusal: u32, place: usize) -> LogRead
    ensures { result ≡ refused_read refusal place }
{
    LogRead {
        refusal,
        place,
        head: log_head::no_head(),
    }
}

fn refused_by(command: Command) -> LogRead
    ensures { result ≡ refused_by command }
{
    refused_read(
        log_command::command_number(command),
        log_command::command_place(command),
    )
}

// How a walk along the log ends.
fn walk_end(log: &[u8]) -> Command
    ensures { result ≡ last_of (walk log.now) }
{
    let mut cursor = log_cursor::start();
    let mut last = Command::Refused {
        number: 34,
        place: 0,
    };
    for _call in 0..log.len() + 1 {
        let s = log_cursor::step_at(log, cursor);
        let command = s.command;
        let next = s.next;
        if log_command::is_refused(command) {
            return command;
        }
        last = command;
        cursor = next;
    }
    last
}

// The answer for a log and a list of so many places.
fn log_read(log: &[u8], list: usize) -> LogRead
    ensures { result ≡ log_read log.now list }
{
    let s = log_cursor::step_at(log, log_cursor::start());
    let begun = s.command;
    let next = s.next;
    if log_command::is_refused(begun) {
        return refused_by(begun);
    }
    let head = log_command::command_head(begun);
    if list < 3 * log_head::head_blocks(head) {
        return refused_read(10, next.at);
    }
    let ended = walk_end(log);
    if log_command::command_number(ended) == 34 {
        return LogRead {
            refusal: 0,
            place: 0,
            head,
        };
    }
    refused_by(ended)
}

// The numbers of a command, if it is a block.
fn store(list: &mut [i32], at: usize, command: Command) -> usize
    requires { (at + length (block_values command) ≤ length list.old) × (stored_distortion command ≤ largest_logged) }
    ensures { Put list.old at (block_values command) list.new result }
{
    match command {
        Command::Block { dy, dx, distortion } => put::put_entry(list, at, dy, dx, distortion),
        Command::Still => put::put_entry(list, at, 0, 0, 0),
        _ => at,
    }
}

// All blocks of the log.
fn fill(log: &[u8], list: &mut [i32])
    requires { length (field_of (walk log.now)) ≤ length list.old }
    ensures { list.new ≡ field_of (walk log.now) ++ drop (length (field_of (walk log.now))) list.old }
{
    let mut cursor = log_cursor::start();
    let mut at: usize = 0;
    for _call in 0..log.len() + 1 {
        let s = log_cursor::step_at(log, cursor);
        let command = s.command;
        let next = s.next;
        at = store(list, at, command);
        if log_command::is_refused(command) {
            return;
        }
        cursor = next;
    }
}

// Reads the whole log into the list.
pub fn read_log(log: &[u8], list: &mut [i32]) -> LogRead
    ensures { read_result result list.new ≡ read_log log.now list.old }
{
    let answer = log_read(log, list.len());
    if answer.refusal != 0 {
        return answer;
    }
    fill(log, list);
    answer
}
