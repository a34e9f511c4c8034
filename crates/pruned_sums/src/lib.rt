// The summed-area table of a part of a frame.

#![tactic(auto)]

ghost use Rattle.std.specs.Prelude.{◌≡◌, ◌++◌, ℕ, ◌+◌, ◌*◌, ◌≤◌, ◌<◌, length, get_or, drop};
ghost use Rattle.base.specs.Lists.{fill_to};
ghost use Rattle.distortion.specs.Blocks.{block_at};
ghost use Rattle.pruned_sums.specs.Area.{summed};
ghost use Rattle.pruned_sums.specs.Filling.{next_row, Fillable};

use frame::Region;

// One row of the table, at `here`: the row at `above`, with the sums of the pels from `from` on added.
fn fill_row(frame: &[u8], from: usize, columns: usize, table: &mut [u32], above: usize, here: usize)
    requires inside { (columns ≤ 1024) × (from + columns ≤ length frame.now) }
    requires room { (above + columns < here) × (here + columns < length table.old) }
    requires small { (c : ℕ) → c ≤ columns → get_or table.old (above + c) 0 ≤ 267386880 }
    ensures { table.new ≡ fill_to table.old here (next_row frame.now from table.old above) (columns + 1) }
{
    let mut run: u32 = 0;
    for c in 0..columns {
        table[here + c] = table[above + c] + run;
        run += u32::from(frame[from + c]);
    }
    table[here + columns] = table[above + columns] + run;
}

// The summed-area table of a part of a frame.
pub fn fill_sums(frame: &[u8], width: usize, a: Region, table: &mut [u32])
    requires { Fillable frame.now width a (length table.old) }
    ensures { table.new ≡ summed (block_at frame.now width a.top a.left) a.rows a.columns
        ++ drop ((a.rows + 1) * (a.columns + 1)) table.old }
{
    let top = a.top;
    let left = a.left;
    let rows = a.rows;
    let columns = a.columns;
    let stride = columns + 1;
    table[..stride].fill(0);
    let mut from = top * width + left;
    let mut here: usize = 0;
    for _r in 0..rows {
        let next = here + stride;
        fill_row(frame, from, columns, table, here, next);
        from += width;
        here = next;
    }
}
