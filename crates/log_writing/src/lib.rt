// Writes a log: head numbers and a list of three numbers a block, as bytes in a lent buffer.

#![tactic(auto)]

ghost use Rattle.std.specs.Prelude.{◌≡◌, cond, [], ◌∷◌, ◌+◌, ◌*◌, ◌≤◌, ◌<◌, length};
ghost use Rattle.base.specs.Lists.{concat_to};
ghost use Rattle.put.specs.Put.{Put};
ghost use Rattle.refusals.specs.Numbers.{number_of};
ghost use Rattle.log_command.specs.Numbers.{bytes2, bytes4};
ghost use Rattle.log_command.specs.Commands.{carries, is_long};
ghost use Rattle.log_head.specs.Heads.{head_refusal, head_blocks, Entry};
ghost use Rattle.log_command.specs.Logs.{log_of};
ghost use Rattle.log_list.specs.Listed.{value_of, AllPass};
ghost use Rattle.log_writing.specs.Writing.{write_result, refused_write, write_log};
ghost use Rattle.log_writing.specs.Parts.{head_bytes, numbers_bytes, end_bytes, block_bytes};

use log_head::Head;
use refusals::Refusal;

// What writing answers: the log's length, or a refusal with its place.
#[repr(C)]
#[derive(Clone, Copy)]
pub struct Written {
    pub refusal: u32,
    pub place: usize,
    pub length: usize,
}

fn refused_write(refusal: Refusal, place: usize) -> Written
    ensures { result ≡ refused_write (number_of refusal) place }
{
    Written {
        refusal: refusal.into(),
        place,
        length: 0,
    }
}

// How many bytes block k takes.
fn block_size(list: &[i32], k: usize) -> usize
    requires inside { (3 * k + 3 ≤ length list.now) × (k < 1048576) }
    requires entry { Entry (value_of list.now k 0) (value_of list.now k 1) (value_of list.now k 2) }
    ensures { (result ≡ length (block_bytes list.now k)) × (result ≤ 7) }
{
    let e = log_list::entry_at(list, k);
    // The size first: so the compiler needs no branch, which would be guessed wrong where still blocks stand among others.
    let size = log_command::size_by(log_command::block_number(e.distortion.unsigned_abs()));
    if log_head::is_still(e.dy, e.dx, e.distortion) {
        return log_command::STILL_SIZE;
    }
    size
}

// How many bytes the log takes.
fn log_size(head: Head, list: &[i32]) -> usize
    requires { AllPass head list.now }
    ensures { result ≡ length (log_of head list.now) }
{
    let n = log_head::head_blocks(head);
    let mut size = log_command::size_by(log_command::head_number(head)) + log_command::END_SIZE;
    for k in 0..n {
        size += block_size(list, k);
    }
    size
}

// A number of two bytes, the higher first.
fn put_two(out: &mut [u8], at: usize, n: usize) -> usize
    requires { (at < 1000000000000) × (n < 65536) }
    ensures { Put out.old at (bytes2 n) out.new result }
{
    let low = put::put_byte(out, at, (n / 256) as u8);
    put::put_byte(out, low, (n % 256) as u8)
}

// A number of four bytes, the highest first.
fn put_four(out: &mut [u8], at: usize, n: usize) -> usize
    requires { (at < 500000000000) × (n < 4294967296) }
    ensures { Put out.old at (bytes4 n) out.new result }
{
    let low = put_two(out, at, n / 65536);
    put_two(out, low, n % 65536)
}

// The measure, where the head carries it.
fn put_measure(out: &mut [u8], at: usize, h: Head) -> usize
    requires { at < 1000000000000 }
    ensures { Put out.old at (cond (carries h) (h.measure ∷ []) []) out.new result }
{
    if log_command::carries(h) {
        return put::put_byte(out, at, h.measure as u8);
    }
    at
}

// The head, at the buffer's start.
fn put_head(out: &mut [u8], h: Head) -> usize
    requires { head_refusal h ≡ 0 }
    ensures { Put out.old 0 (head_bytes h) out.new result }
{
    let width = put::put_byte(out, 0, log_command::head_number(h));
    let height = put_two(out, width, h.width);
    let n = put_two(out, height, h.height);
    let w = put::put_byte(out, n, h.n as u8);
    let search = put::put_byte(out, w, h.w as u8);
    let measure = put::put_byte(out, search, h.search as u8);
    put_measure(out, measure, h)
}

// A distortion: four bytes where it is long, else two.
fn put_distortion(out: &mut [u8], at: usize, distortion: u32) -> usize
    requires { at < 500000000000 }
    ensures { Put out.old at (cond (is_long distortion) (bytes4 distortion) (bytes2 distortion)) out.new result }
{
    if log_command::is_long(distortion) {
        return put_four(out, at, distortion as usize);
    }
    put_two(out, at, distortion as usize)
}

// A block that is not still.
fn put_numbers(out: &mut [u8], at: usize, dy: i32, dx: i32, distortion: i32) -> usize
    requires { (at < 100000000000) × Entry dy dx distortion }
    ensures { Put out.old at (numbers_bytes dy dx distortion) out.new result }
{
    let sum = distortion.unsigned_abs();
    let a = put::put_byte(out, at, log_command::block_number(sum));
    let b = put::put_byte(out, a, signed::to_byte(dy));
    let c = put::put_byte(out, b, signed::to_byte(dx));
    put_distortion(out, c, sum)
}

// Block k.
fn put_block(out: &mut [u8], at: usize, list: &[i32], k: usize) -> usize
    requires inside { (at < 100000000000) × (3 * k + 3 ≤ length list.now) × (k < 1048576) }
    requires entry { Entry (value_of list.now k 0) (value_of list.now k 1) (value_of list.now k 2) }
    ensures { Put out.old at (block_bytes list.now k) out.new result × (result ≤ at + 7) }
{
    let e = log_list::entry_at(list, k);
    if log_head::is_still(e.dy, e.dx, e.distortion) {
        return put::put_byte(out, at, log_command::STILL);
    }
    put_numbers(out, at, e.dy, e.dx, e.distortion)
}

// All blocks.
fn put_blocks(out: &mut [u8], at: usize, head: Head, list: &[i32]) -> usize
    requires { (at ≤ 9) × AllPass head list.now }
    ensures { Put out.old at (concat_to (block_bytes list.now) (head_blocks head)) out.new result × (result ≤ 10000000) }
{
    let n = log_head::head_blocks(head);
    let mut next = at;
    for k in 0..n {
        next = put_block(out, next, list, k);
    }
    next
}

// The end, with the number of blocks.
fn put_end(out: &mut [u8], at: usize, n: usize) -> usize
    requires { (at ≤ 10000000) × (n ≤ 1048576) }
    ensures { Put out.old at (end_bytes n) out.new result }
{
    let blocks = put::put_byte(out, at, log_command::END);
    put_four(out, blocks, n)
}

// The log, at the buffer's start. Answers with its length.
fn put_log(out: &mut [u8], head: Head, list: &[i32]) -> usize
    requires { AllPass head list.now }
    ensures { Put out.old 0 (log_of head list.now) out.new result }
{
    let blocks = put_head(out, head);
    let end = put_blocks(out, blocks, head, list);
    put_end(out, end, log_head::head_blocks(head))
}

// Writes the log of these head numbers and this list over the front of the buffer.
pub fn write_log(head: Head, list: &[i32], buffer: &mut [u8]) -> Written
    ensures { write_result result buffer.new ≡ write_log head list.now buffer.old }
{
    if let Err(fault) = log_list::list_verdict(head, list) {
        return refused_write(fault.refusal, fault.place);
    }
    if buffer.len() < log_size(head, list) {
        return refused_write(Refusal::Buffer, 0);
    }
    Written {
        refusal: 0,
        place: 0,
        length: put_log(buffer, head, list),
    }
}
