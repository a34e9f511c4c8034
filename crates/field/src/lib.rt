// The field: every grid block searched, its vector and distortion in a lent list, and the reading and the sums over the blocks as the answer.

#![tactic(auto)]

ghost use Rattle.std.specs.Prelude.{◌≡◌, ◌≤◌, length, replicate};
ghost use Rattle.order.specs.Vectors.{vector_count};
ghost use Rattle.frame.specs.Pictures.{pair_of};
ghost use Rattle.frame.specs.Grid.{blocks};
ghost use Rattle.refusals.specs.Refusals.{request_refusal, setting_of};
ghost use Rattle.pruned_sums.specs.Filling.{whole_frame};
ghost use Rattle.voter.specs.Voter.{voting};
ghost use Rattle.field_rules.specs.Rules.{list_size, HasRoom};
ghost use Rattle.field_block.specs.Blocks.{search_at};
ghost use Rattle.field.specs.Field.{refused_field, filled_table, field_result, accepted_field, field};
ghost use Rattle.field.specs.Filling.{Summable, BlocksFilled};

use field_block::Total;
use frame::Region;
use order::Vector;
use refusals::Request;

// What a field call answers: the reading with its votes and the voters, and the counts and the number dropped, summed over the blocks.
#[repr(C)]
#[derive(Clone, Copy)]
pub struct FieldAnswer {
    pub refusal: u32,
    pub dy: i32,
    pub dx: i32,
    pub votes: u32,
    pub voters: u32,
    pub counts: [u32; frame::COUNTS],
    pub dropped: u32,
}

pub fn refused_field(refusal: u32) -> FieldAnswer
    ensures { result ≡ refused_field refusal }
{
    FieldAnswer {
        refusal,
        dy: 0,
        dx: 0,
        votes: 0,
        voters: 0,
        counts: search::only_at_one(0),
        dropped: 0,
    }
}

// The whole of the older frame, which the table is of.
fn whole_frame(q: Request) -> Region
    ensures { result ≡ whole_frame (setting_of q) }
{
    Region {
        top: 0,
        left: 0,
        rows: q.height,
        columns: q.width,
    }
}

// The table of sums, which search 2 alone fills.
fn fill_table(older: &[u8], q: Request, table: &mut [u32])
    requires { Summable (length older.now) q (length table.old) }
    ensures { table.new ≡ filled_table older.now q table.old }
{
    if q.search == 2 {
        pruned_sums::fill_sums(older, q.width, whole_frame(q), table);
    }
}

// The list, the votes and the sums of all grid blocks.
fn fill_list(
    older: &[u8],
    newer: &[u8],
    q: Request,
    list: &mut [i32],
    votes: &mut [u32; order::VECTORS],
) -> Total
    requires fine { request_refusal (length older.now) (length newer.now) q ≡ 0 }
    requires room { (list_size (setting_of q) ≤ length list.old) × (votes.old ≡ replicate vector_count 0) }
    ensures { let p = pair_of older.now newer.now (setting_of q) in
        BlocksFilled (voting p) (search_at p q) (blocks (setting_of q)) list.old list.new votes.new result }
{
    let s = refusals::setting_of(q);
    let n = frame::block_count(s);
    let mut total = Total {
        counts: [0; frame::COUNTS],
        dropped: 0,
        voters: 0,
    };
    for k in 0..n {
        let f = field_block::search_at(older, newer, q, k);
        put::put_entry(list, 3 * k, f.dy, f.dx, f.distortion);
        let v = Vector { dy: f.dy, dx: f.dx };
        let voting = voter::is_voter_at(newer, s, k);
        reading::vote(votes, v, voting);
        total = field_block::join(total, f, voting);
    }
    total
}

// The field call behind its refusals.
fn fill(older: &[u8], newer: &[u8], q: Request, list: &mut [i32], table: &mut [u32]) -> FieldAnswer
    requires { HasRoom (length older.now) (length newer.now) q (length list.old) (length table.old) }
    ensures { field_result result list.new table.new
        ≡ accepted_field older.now newer.now q list.old table.old }
{
    fill_table(older, q, table);
    let mut votes = [0u32; order::VECTORS];
    let total = fill_list(older, newer, q, list, &mut votes);
    let order = order::table();
    let r = reading::reading_of(&order, &votes);
    let counts = total.counts;
    FieldAnswer {
        refusal: 0,
        dy: r.dy,
        dx: r.dx,
        votes: r.votes,
        voters: total.voters,
        counts,
        dropped: total.dropped,
    }
}

// Searches every grid block of the pair: list and table as lent, the reading and the sums as the answer.
pub fn field(
    older: &[u8],
    newer: &[u8],
    q: Request,
    list: &mut [i32],
    table: &mut [u32],
) -> FieldAnswer
    ensures { field_result result list.new table.new
        ≡ field older.now newer.now q list.old table.old }
{
    if let Err(refusal) = field_rules::field_refusal(
        older.len(),
        newer.len(),
        q,
        list.len(),
        table.len(),
    ) {
        return refused_field(refusal.into());
    }
    fill(older, newer, q, list, table)
}
