// Head numbers and a list of three numbers a block, as a field fills it: what writing a log tests of them, 1 3 4 51 5 10 16.

#![tactic(auto)]

ghost use Rattle.std.specs.Prelude.{◌≡◌, ◌+◌, ◌*◌, ◌≤◌, ◌<◌, length, unwrap_or, IfSome};
ghost use Rattle.base.specs.FirstWrong.{first_wrong};
ghost use Rattle.refusals.specs.Numbers.{number_in};
ghost use Rattle.log_head.specs.Heads.{head_blocks};
ghost use Rattle.log_list.specs.Listed.{value_of, entry_of, list_refusal, listed_ok, Writable, unplaced, verdict_of, list_verdict};

use log_head::Head;
use refusals::Refusal;

// Why head numbers and a list are turned away, and where: by 16 at a block's number, else at 0.
#[derive(Clone, Copy, Debug, PartialEq, Eq)]
pub struct Fault {
    pub refusal: Refusal,
    pub place: usize,
}

impl From<Refusal> for Fault {
    ghost from_gives = { λ r fault. fault ≡ unplaced r };

    fn from(refusal: Refusal) -> Fault {
        Fault { refusal, place: 0 }
    }
}

// A block's three numbers, as a list has them.
#[derive(Clone, Copy)]
pub struct Entry {
    pub dy: i32,
    pub dx: i32,
    pub distortion: i32,
}

// The first of 1 3 4 51 5 10 that applies, if one does; the list by its length.
fn list_refusal(head: Head, list: usize) -> Result<(), Refusal>
    ensures { number_in result ≡ list_refusal head list }
{
    log_head::head_refusal(head)?;
    if list < 3 * log_head::head_blocks(head) {
        return Err(Refusal::List);
    }
    Ok(())
}

// The number at place i of block k's three.
pub fn value(list: &[i32], k: usize, i: usize) -> i32
    requires { (3 * k + i < length list.now) × (k < 1048576) × (i < 3) }
    ensures { result ≡ value_of list.now k i }
{
    list[3 * k + i]
}

// The three numbers of block k.
pub fn entry_at(list: &[i32], k: usize) -> Entry
    requires { (3 * k + 3 ≤ length list.now) × (k < 1048576) }
    ensures { result ≡ entry_of list.now k }
{
    Entry {
        dy: value(list, k, 0),
        dx: value(list, k, 1),
        distortion: value(list, k, 2),
    }
}

// 16 lets block k pass.
fn listed_ok(head: Head, list: &[i32], k: usize) -> bool
    requires { Writable head (length list.now) × (k < head_blocks head) }
    ensures { result ≡ listed_ok head list.now k }
{
    let e = entry_at(list, k);
    log_head::entry_ok(head, k, e.dy, e.dx, e.distortion)
}

// The first block that 16 turns away, if there is one. Compiled by itself: inlined where a log is written, its loop lacks registers, and is slower.
#[inline(never)]
fn first_wrong(head: Head, list: &[i32]) -> Option<usize>
    requires { Writable head (length list.now) }
    ensures { (unwrap_or result (head_blocks head) ≡ first_wrong (listed_ok head list.now) 0 (head_blocks head))
        × IfSome result (λ k. k < head_blocks head) }
{
    let n = log_head::head_blocks(head);
    for k in 0..n {
        if !listed_ok(head, list, k) {
            return Some(k);
        }
    }
    None
}

// 1 3 4 51 5 10, then 16 with the block's number as place.
pub fn list_verdict(head: Head, list: &[i32]) -> Result<(), Fault>
    ensures { verdict_of result ≡ list_verdict head list.now }
{
    list_refusal(head, list.len())?;
    if let Some(wrong) = first_wrong(head, list) {
        return Err(Fault {
            refusal: Refusal::Entry,
            place: wrong,
        });
    }
    Ok(())
}
