// The row view: N pels of one row as the very part of the older or the newer frame, and its companion.

#![tactic(auto)]

ghost use Rattle.std.specs.Prelude.{◌≡◌, length};
ghost use Rattle.frame.specs.Pictures.{pair_of};
ghost use Rattle.refusals.specs.Numbers.{number_in};
ghost use Rattle.view.specs.View.{view_refusal, view_place, row_view, part_start};

use frame::Setting;
use refusals::Refusal;

// A row view as a place in its frame: where the part begins, and how many pels it has.
#[repr(C)]
#[derive(Clone, Copy)]
pub struct RowView {
    pub refusal: u32,
    pub place: usize,
    pub length: usize,
}

// The first of 1 2 3 12 7 that applies to a row view, if one does.
pub fn view_refusal(
    older: usize,
    newer: usize,
    s: Setting,
    side: u32,
    row: usize,
    column: usize,
) -> Result<(), Refusal>
    ensures { number_in result ≡ view_refusal older newer s side row column }
{
    refusals::pair_refusal(older, newer, s)?;
    let rows = s.height;
    let last = s.width - s.n;
    if 1 < side {
        return Err(Refusal::ViewSide);
    }
    if rows <= row {
        return Err(Refusal::Place); // no such row
    }
    if last < column {
        return Err(Refusal::Place); // the row ends before the N pels do
    }
    Ok(())
}

// Where the pels of a row view stand in their frame.
pub fn view_place(
    older: usize,
    newer: usize,
    s: Setting,
    side: u32,
    row: usize,
    column: usize,
) -> RowView
    ensures { result ≡ view_place older newer s side row column }
{
    if let Err(refusal) = view_refusal(older, newer, s, side, row, column) {
        return RowView {
            refusal: refusal.into(),
            place: 0,
            length: 0,
        };
    }
    RowView {
        refusal: 0,
        place: row * s.width + column,
        length: s.n,
    }
}

// N pels from row and column on, as the very part of the older (side 0) or the newer frame (side 1); an empty part where refused.
pub fn row_view<'a>(
    older: &'a [u8],
    newer: &'a [u8],
    s: Setting,
    side: u32,
    row: usize,
    column: usize,
) -> &'a [u8]
    ensures { (result.now ≡ row_view (pair_of older.now newer.now s) side row column)
        × (result.ref_ptr ≡ part_start older.entry.ref_ptr newer.entry.ref_ptr side
        (view_place (length older.now) (length newer.now) s side row column).place) }
{
    let view = view_place(older.len(), newer.len(), s, side, row, column);
    let at = view.place;
    let end = at + view.length;
    if side == 0 {
        return &older[at..end];
    }
    &newer[at..end]
}

// The companion of the row view: why it is refused, if it is.
pub fn row_view_refusal(
    older: &[u8],
    newer: &[u8],
    s: Setting,
    side: u32,
    row: usize,
    column: usize,
) -> Result<(), Refusal>
    ensures { number_in result ≡ view_refusal (length older.now) (length newer.now) s side row column }
{
    view_refusal(older.len(), newer.len(), s, side, row, column)
}
