// The line of a command: its words and numbers, put into a lent buffer. A byte past the buffer's end is counted and not put.

#![tactic(auto)]

ghost use Rattle.std.specs.Prelude.{◌≡◌, false, cond, [], ◌∷◌, ◌+◌, ◌≤◌, length, pos};
ghost use Rattle.put.specs.Put.{Put};
ghost use Rattle.log_command.specs.declared.Command.TheVariants as Cmd;
ghost use Rattle.log_command.specs.Commands.{carries, is_refused};
ghost use Rattle.log_line.specs.Line.{number_text, spaced, worded, line_of};

use log_command::Command;
use log_head::Head;

// A number, and the byte after it.
fn put_field(out: &mut [u8], at: usize, n: usize, after: u8) -> usize
    requires { at ≤ 1000001000 }
    ensures { (Put out.old at (number_text (pos n) after) out.new result) × (result ≤ at + 21) }
{
    let k = put::put_number(out, at, n);
    put::put_byte(out, k, after)
}

// A word.
fn put_word(out: &mut [u8], at: usize, word: &[u8]) -> usize
    requires { (at ≤ 1000001000) × (length word.now ≤ 8) }
    ensures { (Put out.old at word.now out.new result) × (result ≤ at + 8) }
{
    let mut k = at;
    for &b in word {
        k = put::put_byte(out, k, b);
    }
    k
}

// A signed number, and the byte after it.
fn put_signed(out: &mut [u8], at: usize, z: i32, after: u8) -> usize
    requires { at ≤ 1000000900 }
    ensures { (Put out.old at (number_text z after) out.new result) × (result ≤ at + 22) }
{
    let n = z.unsigned_abs() as usize;
    if z < 0 {
        let k = put::put_byte(out, at, b'-');
        return put_field(out, k, n, after);
    }
    put_field(out, at, n, after)
}

// The end of a head's line: the search, and the measure where the head carries it.
fn put_search(out: &mut [u8], at: usize, h: Head) -> usize
    requires { at ≤ 1000000900 }
    ensures { (Put out.old at (spaced (pos h.search ∷ cond (carries h) (pos h.measure ∷ []) [])) out.new result)
        × (result ≤ at + 42) }
{
    if log_command::carries(h) {
        let k = put_field(out, at, h.search as usize, b' ');
        return put_field(out, k, h.measure as usize, b'\n');
    }
    put_field(out, at, h.search as usize, b'\n')
}

// The line of a head.
fn put_head(out: &mut [u8], at: usize, h: Head) -> usize
    requires { at ≤ 1000000000 }
    ensures { (Put out.old at (worded (Cmd.Head h)) out.new result) × (result ≤ at + 126) }
{
    let a = put_field(out, at, h.width, b' ');
    let b = put_field(out, a, h.height, b' ');
    let c = put_field(out, b, h.n, b' ');
    let d = put_field(out, c, h.w, b' ');
    put_search(out, d, h)
}

// The line of a block.
fn put_block(out: &mut [u8], at: usize, dy: i32, dx: i32, distortion: u32) -> usize
    requires { at ≤ 1000000000 }
    ensures { (Put out.old at (worded (Cmd.Block dy dx distortion)) out.new result) × (result ≤ at + 65) }
{
    let a = put_signed(out, at, dy, b' ');
    let b = put_signed(out, a, dx, b' ');
    put_field(out, b, distortion as usize, b'\n')
}

// The line of a still block: where the buffer has room, its six bytes at once.
pub fn put_still(out: &mut [u8], at: usize) -> usize
    requires { at ≤ 1000000000 }
    ensures { (Put out.old at (line_of Cmd.Still) out.new result) × (result ≤ at + 6) }
{
    if at + 6 <= out.len() {
        out[at] = b'0';
        out[at + 1] = b' ';
        out[at + 2] = b'0';
        out[at + 3] = b' ';
        out[at + 4] = b'0';
        out[at + 5] = b'\n';
        return at + 6;
    }
    put_word(out, at, b"0 0 0\n")
}

// The line of the end.
fn put_end(out: &mut [u8], at: usize, blocks: usize) -> usize
    requires { at ≤ 1000000000 }
    ensures { (Put out.old at (worded (Cmd.End blocks)) out.new result) × (result ≤ at + 29) }
{
    let a = put_word(out, at, b"end ");
    put_field(out, a, blocks, b'\n')
}

// The line of a refusal.
pub fn put_refused(out: &mut [u8], at: usize, refusal: u32, place: usize) -> usize
    requires { at ≤ 1000000000 }
    ensures { (Put out.old at (worded (Cmd.Refused refusal place)) out.new result) × (result ≤ at + 58) }
{
    let a = put_word(out, at, b"refused ");
    let b = put_field(out, a, refusal as usize, b' ');
    let c = put_word(out, b, b"at ");
    put_field(out, c, place, b'\n')
}

// The line of a command.
pub fn put_line(out: &mut [u8], at: usize, command: Command) -> usize
    requires { at ≤ 1000000000 }
    ensures { (Put out.old at (line_of command) out.new result) × (result ≤ at + 128) }
{
    match command {
        Command::Head(h) => put_head(out, at, h),
        Command::Block { dy, dx, distortion } => put_block(out, at, dy, dx, distortion),
        Command::Still => put_still(out, at),
        Command::End(blocks) => put_end(out, at, blocks),
        Command::Refused { number, place } => {
            if number == 34 {
                at
            } else {
                put_refused(out, at, number, place)
            }
        }
    }
}

// The line of a block of either kind; a still block's is at hand, for a log may have thousands of them.
pub fn put_block_line(out: &mut [u8], at: usize, command: Command) -> usize
    requires { (at ≤ 1000000000) × (is_refused command ≡ false) }
    ensures { (Put out.old at (line_of command) out.new result) × (result ≤ at + 128) }
{
    if log_command::command_number(command) == log_command::STILL as u32 {
        return put_still(out, at);
    }
    put_line(out, at, command)
}
