// The text of a log: all that the program prints, put into a lent buffer. A byte past the buffer's end is counted and not put.

#![tactic(auto)]

ghost use Rattle.std.specs.Prelude.{◌≡◌, ◌+◌, ◌*◌, ◌≤◌, ◌<◌, length, replicate};
ghost use mathlib.Core.List.{flat_map};
ghost use Rattle.put.specs.Put.{Put, over_front};
ghost use Rattle.log_cursor.specs.Step.{body_cursor};
ghost use Rattle.log_cursor.specs.Walk.{commands_from, walk};
ghost use Rattle.log_head.specs.Heads.{head_refusal};
ghost use Rattle.log_command.specs.declared.Command.TheVariants as Cmd;
ghost use Rattle.log_line.specs.Line.{line_of};
ghost use Rattle.log_text.specs.Text.{longest_log, longest_text, print_log};
ghost use Rattle.log_text.specs.Stills.{still_run};

use log_cursor::{Cursor, Phase};
use log_head::Head;

// A log that is printed has no more bytes, and its text no more than these: a byte of a log prints 6 at most, the refusal 20.
pub const LONGEST_LOG: usize = 65536;

pub const LONGEST_TEXT: usize = 6 * LONGEST_LOG + 20;

// The lines of so many calls from a cursor on.
fn put_from(log: &[u8], out: &mut [u8], from: usize, start: Cursor, most: usize) -> usize
    requires { from + 128 * most ≤ 16777216 }
    ensures { Put out.old from (flat_map line_of (commands_from most log.now start)) out.new result }
{
    let mut cursor = start;
    let mut at = from;
    for _call in 0..most {
        let s = log_cursor::step_at(log, cursor);
        let command = s.command;
        let next = s.next;
        at = log_line::put_line(out, at, command);
        if log_command::is_refused(command) {
            return at;
        }
        cursor = next;
    }
    at
}

// How many still blocks stand one after the other from here on, at most so many.
fn still_run(log: &[u8], from: usize, most: usize) -> usize
    requires { (from ≤ length log.now) × (length log.now ≤ longest_log) }
    ensures { (result ≡ still_run log.now from most) × (result ≤ most) × (from + result ≤ length log.now) }
{
    for n in 0..most {
        if from + n >= log.len() {
            return n;
        }
        if log[from + n] != log_command::STILL {
            return n;
        }
    }
    most
}

// The lines of n still blocks.
fn put_stills(out: &mut [u8], from: usize, n: usize) -> usize
    requires { from + 6 * n ≤ 16777216 }
    ensures { (Put out.old from (flat_map line_of (replicate n Cmd.Still)) out.new result) × (result ≤ from + 6 * n) }
{
    let mut at = from;
    for _still in 0..n {
        at = log_line::put_still(out, at);
    }
    at
}

// The lines after the head's, from the command at `first` on: head and grid are judged once. What follows the last block comes by `put_from`.
fn put_body(log: &[u8], out: &mut [u8], from: usize, first: usize, head: Head) -> usize
    requires { (0 < first) × (first ≤ length log.now) × (length log.now ≤ longest_log) × (from ≤ 128) × (head_refusal head ≡ 0) }
    ensures { Put out.old from (flat_map line_of (commands_from (length log.now) log.now (body_cursor head first 0)))
        out.new result }
{
    let all = log_head::head_blocks(head);
    let mut next = first;
    let mut k: usize = 0;
    let mut at = from;
    // Not a `for` over the blocks: a turn passes a whole run of still blocks.
    while k < all {
        let command = log_cursor::body_command(log, next, head, all, k);
        if log_command::is_refused(command) {
            return log_line::put_line(out, at, command);
        }
        at = log_line::put_block_line(out, at, command);
        next += log_command::command_size(command);
        k += 1;
        // A still block is often the first of a run.
        if log_command::command_number(command) == log_command::STILL as u32 {
            let n = still_run(log, next, all - k);
            at = put_stills(out, at, n);
            next += n;
            k += n;
        }
    }
    let rest = Cursor {
        at: next,
        phase: Phase::Body { head, blocks: k },
    };
    put_from(log, out, at, rest, log.len() - k)
}

// The lines of a walk, from the buffer's start.
fn put_walk(log: &[u8], out: &mut [u8]) -> usize
    requires { length log.now ≤ longest_log }
    ensures { Put out.old 0 (flat_map line_of (walk log.now)) out.new result }
{
    let s = log_cursor::step_at(log, log_cursor::start());
    let first = s.command;
    let next = s.next;
    let at = log_line::put_line(out, 0, first);
    if log_command::is_refused(first) {
        return at;
    }
    put_body(log, out, at, next.at, log_command::command_head(first))
}

// All that the program prints for the bytes of a log, over the front of the buffer as far as it fits. Answers with the text's length.
pub fn print_log(log: &[u8], out: &mut [u8]) -> usize
    ensures { (out.new ≡ over_front (print_log log.now) out.old)
        × (result ≡ length (print_log log.now)) × (result ≤ longest_text) }
{
    if log.len() > LONGEST_LOG {
        return log_line::put_refused(out, 0, 20, LONGEST_LOG);
    }
    put_walk(log, out)
}
