// What the field call tests before anything is filled: the request, and the lengths of list and table.

#![tactic(auto)]

ghost use Rattle.std.specs.Prelude.{◌≡◌};
ghost use Rattle.refusals.specs.Numbers.{number_in};
ghost use Rattle.field_rules.specs.Rules.{field_refusal};

use refusals::{Refusal, Request};

// The first of 1 2 3 4 51 5 6 9 10 that applies, if one does; list and table by their lengths.
pub fn field_refusal(
    older: usize,
    newer: usize,
    q: Request,
    list: usize,
    table: usize,
) -> Result<(), Refusal>
    ensures { number_in result ≡ field_refusal older newer q list table }
{
    refusals::request_refusal(older, newer, q)?;
    if q.search == 2 {
        if table < (q.height + 1) * (q.width + 1) {
            return Err(Refusal::Table);
        }
    }
    if list < 3 * frame::block_count(refusals::setting_of(q)) {
        return Err(Refusal::List);
    }
    Ok(())
}
