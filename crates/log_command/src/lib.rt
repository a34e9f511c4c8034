// What a command of a log is: its number, its size, and its operands in the bytes of a log.

#![tactic(auto)]

ghost use Rattle.std.specs.Prelude.{◌≡◌, ◌+◌, ◌≤◌, ◌<◌, length, get_or};
ghost use Rattle.log_command.specs.Numbers.{be2, be4};
ghost use Rattle.log_command.specs.Commands.{carries, is_long, head_number, block_number, size_by};
ghost use Rattle.log_command.specs.Commands.{command_number, command_size, command_place, command_head, is_refused};
ghost use Rattle.log_command.specs.Operands.{measure_in, head_in, distortion_in};

use log_head::Head;

// What a call of the walker hands out. specs/Commands.antt has the number of each case, `command_number`, and its values, `command_values`. A refusal is
// the last of a walk's commands and has the number of the log's rules: the laws of whole walks in log_walks and log_round_trip speak of it so.
#[derive(Clone, Copy)]
pub enum Command {
    Head(Head),
    Block { dy: i32, dx: i32, distortion: u32 },
    Still,
    End(usize),
    Refused { number: u32, place: usize },
}

// The command bytes.
pub const HEAD: u8 = 1;

pub const BLOCK: u8 = 2;

pub const STILL: u8 = 3;

pub const END: u8 = 4;

pub const LONG_BLOCK: u8 = 5; // with a distortion of four bytes

pub const MEASURED_HEAD: u8 = 6; // with the measure

// How many bytes a still block and the end take.
pub const STILL_SIZE: usize = 1;

pub const END_SIZE: usize = 5;

// How many bytes a command of this number takes.
pub fn size_by(number: u8) -> usize
    ensures { result ≡ size_by number }
{
    match number {
        1 => 8,
        2 => 5,
        3 => STILL_SIZE,
        4 => END_SIZE,
        5 => 7,
        6 => 9,
        _ => 0,
    }
}

// The head carries its measure: it is command 6.
pub fn carries(head: Head) -> bool
    ensures { result ≡ carries head }
{
    head.measure == measures::SQUARES
}

// The distortion takes four bytes: its block is command 5.
pub fn is_long(distortion: u32) -> bool
    ensures { result ≡ is_long distortion }
{
    distortion > 65535
}

// The command byte of a head.
pub fn head_number(head: Head) -> u8
    ensures { result ≡ head_number head }
{
    if carries(head) {
        return MEASURED_HEAD;
    }
    HEAD
}

// The command byte of a block that is not still.
pub fn block_number(distortion: u32) -> u8
    ensures { result ≡ block_number distortion }
{
    if is_long(distortion) {
        return LONG_BLOCK;
    }
    BLOCK
}

// A command's number: its byte, or the refusal's.
pub fn command_number(command: Command) -> u32
    ensures { result ≡ command_number command }
{
    match command {
        Command::Head(head) => head_number(head) as u32,
        Command::Block { distortion, .. } => block_number(distortion) as u32,
        Command::Still => STILL as u32,
        Command::End(_) => END as u32,
        Command::Refused { number, .. } => number,
    }
}

// A refusal's place.
pub fn command_place(command: Command) -> usize
    ensures { result ≡ command_place command }
{
    match command {
        Command::Refused { place, .. } => place,
        _ => 0,
    }
}

// The numbers of a head.
pub fn command_head(command: Command) -> Head
    ensures { result ≡ command_head command }
{
    match command {
        Command::Head(head) => head,
        _ => log_head::no_head(),
    }
}

// How many bytes a command takes.
pub fn command_size(command: Command) -> usize
    ensures { result ≡ command_size command }
{
    match command {
        Command::Head(head) => size_by(head_number(head)),
        Command::Block { distortion, .. } => size_by(block_number(distortion)),
        Command::Still => STILL_SIZE,
        Command::End(_) => END_SIZE,
        Command::Refused { .. } => 0,
    }
}

// The command is a refusal.
pub fn is_refused(command: Command) -> bool
    ensures { result ≡ is_refused command }
{
    matches!(command, Command::Refused { .. })
}

// ---- bytes

// Two bytes, highest first.
pub fn two(log: &[u8], i: usize) -> usize
    requires { i + 1 < length log.now }
    ensures { (result ≡ be2 log.now i) × (result < 65536) }
{
    (u32::from(log[i]) * 256 + u32::from(log[i + 1])) as usize
}

// Four bytes, highest first.
pub fn four(log: &[u8], i: usize) -> usize
    requires { i + 3 < length log.now }
    ensures { (result ≡ be4 log.now i) × (result < 4294967296) }
{
    two(log, i) * 65536 + two(log, i + 2)
}

// The measure of a head command.
fn measure_in(log: &[u8], at: usize) -> u32
    requires { (at + 8 ≤ length log.now) × (at + size_by (get_or log.now at 0) ≤ length log.now) }
    ensures { result ≡ measure_in log.now at }
{
    if log[at] == MEASURED_HEAD {
        return u32::from(log[at + 8]);
    }
    measures::ABSOLUTE
}

// The numbers of a head command.
pub fn head_in(log: &[u8], at: usize) -> Head
    requires { (at + 8 ≤ length log.now) × (at + size_by (get_or log.now at 0) ≤ length log.now) }
    ensures { result ≡ head_in log.now at }
{
    Head {
        width: two(log, at + 1),
        height: two(log, at + 3),
        n: u32::from(log[at + 5]) as usize,
        w: u32::from(log[at + 6]) as usize,
        search: u32::from(log[at + 7]),
        measure: measure_in(log, at),
    }
}

// The distortion of a block command.
pub fn distortion_in(log: &[u8], at: usize) -> usize
    requires { (at + 5 ≤ length log.now) × (at + size_by (get_or log.now at 0) ≤ length log.now) }
    ensures { (result ≡ distortion_in log.now at) × (result < 4294967296) }
{
    if log[at] == LONG_BLOCK {
        return four(log, at + 3);
    }
    two(log, at + 3)
}
