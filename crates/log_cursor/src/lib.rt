// The walker's step along a log: the command at a cursor, or the refusal, for a log of any bytes and a cursor built in any way.

#![tactic(auto)]

ghost use Rattle.std.specs.Prelude.{◌≡◌, true, ◌+◌, ◌≤◌, ◌<◌, length, get_or};
ghost use Rattle.log_command.specs.declared.Command.TheVariants as Cmd;
ghost use Rattle.log_command.specs.Commands.{command_size, size_by};
ghost use Rattle.log_head.specs.Heads.{head_refusal, head_blocks};
ghost use Rattle.log_cursor.specs.Step.{taken, head_due, block_passes, block_taken, block_due, still_due, end_due, start_command, body_command, after_end};
ghost use Rattle.log_cursor.specs.Step.{standing_ok, refused_step, command_step, step_of, body_step, step_at, start_cursor};

use log_command::Command;
use log_head::Head;

// How far a walk is: before the head, among the blocks with the head's numbers and how many blocks were read, after the end command, or
// after a refusal.
#[derive(Clone, Copy)]
pub enum Phase {
    Start,
    Body { head: Head, blocks: usize },
    Ended,
    Over,
}

// Where a walk stands: the offset of the next command, and how far it is.
#[derive(Clone, Copy)]
pub struct Cursor {
    pub at: usize,
    pub phase: Phase,
}

// The command of one call, and the cursor after it.
#[derive(Clone, Copy)]
pub struct WalkStep {
    pub command: Command,
    pub next: Cursor,
}

// ---- a command of each kind, in the phase in which it may be due

fn refused(number: u32, place: usize) -> Command
    ensures { result ≡ Cmd.Refused number place }
{
    Command::Refused { number, place }
}

// A head or a block that the rules let pass, under its own number alone; else refused by this number.
fn taken(passes: bool, command: Command, refusal: u32, log: &[u8], at: usize) -> Command
    requires { at < length log.now }
    ensures { result ≡ taken passes command refusal log.now at }
{
    if !passes {
        return refused(refusal, at);
    }
    if u32::from(log[at]) != log_command::command_number(command) {
        return refused(refusal, at); // command 5 with 65,535 or less, command 6 with measure 1
    }
    command
}

// A head as command 1 or 6: due at the start.
fn head_due(log: &[u8], at: usize) -> Command
    requires { (at < length log.now) × (8 ≤ size_by (get_or log.now at 0)) }
    ensures { result ≡ head_due log.now at }
{
    if log.len() - at < log_command::size_by(log[at]) {
        return refused(13, at);
    }
    let head = log_command::head_in(log, at);
    let passes = log_head::head_refusal(head).is_ok();
    taken(passes, Command::Head(head), 15, log, at)
}

// 16 lets the block pass as block k.
fn block_passes(head: Head, k: usize, dy: i32, dx: i32, distortion: usize) -> bool
    requires { (head_refusal head ≡ 0) × (k < head_blocks head) }
    ensures { result ≡ block_passes head k dy dx distortion }
{
    if !log_head::block_ok(head, k, dy, dx, distortion) {
        return false;
    }
    !log_head::is_still(dy, dx, distortion as i32)
}

// A whole block command that is due: the block, or 16.
fn block_taken(log: &[u8], at: usize, head: Head, blocks: usize) -> Command
    requires inside { (at + 5 ≤ length log.now) × (at + size_by (get_or log.now at 0) ≤ length log.now) }
    requires due { (head_refusal head ≡ 0) × (blocks < head_blocks head) }
    ensures { result ≡ block_taken log.now at head blocks }
{
    let dy = signed::from_byte(log[at + 1]);
    let dx = signed::from_byte(log[at + 2]);
    let d = log_command::distortion_in(log, at);
    let passes = block_passes(head, blocks, dy, dx, d);
    let block = Command::Block {
        dy,
        dx,
        distortion: d as u32,
    };
    taken(passes, block, 16, log, at)
}

// A block as command 2 or 5: due until the grid is full.
fn block_due(log: &[u8], at: usize, head: Head, all: usize, blocks: usize) -> Command
    requires { (at < length log.now) × (head_refusal head ≡ 0) × (all ≡ head_blocks head) × (5 ≤ size_by (get_or log.now at 0)) }
    ensures { result ≡ block_due log.now at head blocks }
{
    if blocks >= all {
        return refused(14, at);
    }
    if log.len() - at < log_command::size_by(log[at]) {
        return refused(13, at);
    }
    block_taken(log, at, head, blocks)
}

// A still block: due as a block is.
fn still_due(log: &[u8], at: usize, head: Head, all: usize, blocks: usize) -> Command
    requires { (at < length log.now) × (all ≡ head_blocks head) }
    ensures { result ≡ still_due log.now at head blocks }
{
    if blocks >= all {
        return refused(14, at);
    }
    Command::Still
}

// An end command: due once the grid is full.
fn end_due(log: &[u8], at: usize, head: Head, all: usize, blocks: usize) -> Command
    requires { (at ≤ length log.now) × (all ≡ head_blocks head) }
    ensures { result ≡ end_due log.now at head blocks }
{
    let left = log.len() - at;
    if blocks < all {
        return refused(14, at); // not due
    }
    if left < log_command::END_SIZE {
        return refused(13, at); // cut off
    }
    if log_command::four(log, at + 1) != all {
        return refused(17, at);
    }
    Command::End(all)
}

// ---- the command of a call, by phase

// The command byte decides: at the start a head alone is due.
fn start_command(log: &[u8], at: usize) -> Command
    requires { at ≤ length log.now }
    ensures { result ≡ start_command log.now at }
{
    if log.len() <= at {
        return refused(13, at);
    }
    let command = log[at];
    match command {
        0 => refused(14, at),
        1 | 6 => head_due(log, at),
        2..=5 => refused(14, at),
        7..=255 => refused(14, at),
    }
}

// The command byte decides: among the blocks, with a head that passes and its grid counted, blocks of either kind and the end may be due.
pub fn body_command(log: &[u8], at: usize, head: Head, all: usize, blocks: usize) -> Command
    requires { (at ≤ length log.now) × (head_refusal head ≡ 0) × (all ≡ head_blocks head) }
    ensures { result ≡ body_command log.now at head blocks }
{
    if log.len() <= at {
        return refused(13, at);
    }
    let command = log[at];
    match command {
        0 | 1 => refused(14, at),
        2 | 5 => block_due(log, at, head, all, blocks),
        3 => still_due(log, at, head, all, blocks),
        4 => end_due(log, at, head, all, blocks),
        6 => refused(14, at),
        7..=255 => refused(14, at), // unknown
    }
}

// The call after the end command.
fn after_end(log: &[u8], at: usize) -> Command
    ensures { result ≡ after_end log.now at }
{
    if at < log.len() {
        refused(18, at)
    } else {
        refused(34, 0)
    }
}

// Head numbers and a number of blocks such as a walk can have.
#[tactic(auto, unfolding(crate::specs::Step::standing_ok))]
fn standing_ok(head: Head, blocks: usize) -> bool
    ensures { result ≡ standing_ok head blocks }
{
    if log_head::head_refusal(head).is_err() {
        return false;
    }
    blocks <= log_head::head_blocks(head)
}

// ---- one call

// A refusal; the walk is over.
fn refused_step(at: usize, number: u32, place: usize) -> WalkStep
    ensures { result ≡ refused_step at number place }
{
    WalkStep {
        command: Command::Refused { number, place },
        next: Cursor {
            at,
            phase: Phase::Over,
        },
    }
}

// A command; the walk then stands behind it, in this phase.
fn command_step(command: Command, at: usize, phase: Phase) -> WalkStep
    requires { at + command_size command ≤ 18446744073709551615 }
    ensures { result ≡ command_step command at phase }
{
    WalkStep {
        command,
        next: Cursor {
            at: at + log_command::command_size(command), // behind the end: the first extra byte, where there is one
            phase,
        },
    }
}

// The step that hands a command out; `counted` is the phase behind a block.
fn step_of(command: Command, at: usize, counted: Phase) -> WalkStep
    requires { at + command_size command ≤ 18446744073709551615 }
    ensures { result ≡ step_of command at counted }
{
    match command {
        Command::Head(head) => command_step(command, at, Phase::Body { head, blocks: 0 }),
        Command::Block { .. } | Command::Still => command_step(command, at, counted),
        Command::End(_) => command_step(command, at, Phase::Ended),
        Command::Refused { number, place } => refused_step(at, number, place),
    }
}

// The step among the blocks.
fn body_step(log: &[u8], at: usize, head: Head, blocks: usize) -> WalkStep
    requires { (at ≤ length log.now) × (standing_ok head blocks ≡ true) }
    ensures { result ≡ body_step log.now at head blocks }
{
    let all = log_head::head_blocks(head);
    let command = body_command(log, at, head, all, blocks);
    let counted = Phase::Body {
        head,
        blocks: blocks + 1,
    };
    step_of(command, at, counted)
}

// One call of the walker: the command at the cursor, and the cursor after it.
pub fn step_at(log: &[u8], cursor: Cursor) -> WalkStep
    ensures { result ≡ step_at log.now cursor }
{
    let at = cursor.at;
    let phase = cursor.phase;
    if log.len() < at {
        return refused_step(at, 34, 0);
    }
    match phase {
        Phase::Start => step_of(start_command(log, at), at, Phase::Over),
        Phase::Body { head, blocks } => {
            if standing_ok(head, blocks) {
                body_step(log, at, head, blocks)
            } else {
                refused_step(at, 34, 0)
            }
        }
        Phase::Ended => step_of(after_end(log, at), at, Phase::Over),
        Phase::Over => refused_step(at, 34, 0),
    }
}

// Where a walk begins.
pub fn start() -> Cursor
    ensures { result ≡ start_cursor }
{
    Cursor {
        at: 0,
        phase: Phase::Start,
    }
}
