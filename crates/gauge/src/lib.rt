// The C boundary: the gauge's calls under their C names, as include/gauge.h declares them. Each takes any input; one that may refuse says
// so in its answer.

#![tactic(auto)]

ghost use Rattle.std.specs.Prelude.{◌≡◌, length, ◌≤◌};
ghost use Rattle.order.specs.Vectors.{vec};
ghost use Rattle.frame.specs.Pictures.{setting, pair_of};
ghost use Rattle.view.specs.View.{view_place};
ghost use Rattle.measuring.specs.Measured.{measure_vector};
ghost use Rattle.block.specs.Block.{search_block};
ghost use Rattle.half_search.specs.Half.{search_half};
ghost use Rattle.field.specs.Field.{field_result, field};
ghost use Rattle.track.specs.Track.{track_new, track_home, step_result, track_step};
ghost use Rattle.put.specs.Put.{over_front};
ghost use Rattle.log_writing.specs.Writing.{write_result, write_log};
ghost use Rattle.log_reading.specs.Reading.{read_result, read_log};
ghost use Rattle.log_text.specs.Text.{longest_text, print_log};
ghost use Rattle.log_plain.specs.Plain.{walk_from};

use field::FieldAnswer;
use frame::Setting;
use half_search::HalfResult;
use log_head::Head;
use log_plain::{Place, Walked};
use log_reading::LogRead;
use log_writing::Written;
use measuring::Measured;
use refusals::Request;
use search::SearchResult;
use track::{Homed, Stepped, Track};
use view::RowView;

// Measures one vector under a ceiling: the newer block at a row and a column for (dy, dx), by the measure.
#[unsafe(no_mangle)]
pub extern "C" fn gauge_measure(
    older: &[u8],
    newer: &[u8],
    width: usize,
    height: usize,
    n: usize,
    row: usize,
    column: usize,
    dy: i32,
    dx: i32,
    measure: u32,
    ceiling: u32,
) -> Measured
    ensures { result ≡ measure_vector (pair_of older.now newer.now (setting width height n measure)) row column (vec dy dx) ceiling }
{
    let s = Setting {
        width,
        height,
        n,
        measure,
    };
    measuring::measure(older, newer, s, row, column, dy, dx, ceiling)
}

// The row view: where in its frame the N pels stand. It measures nothing, so the measure that goes with its pair is any one.
#[unsafe(no_mangle)]
pub extern "C" fn gauge_row_view(
    older: &[u8],
    newer: &[u8],
    width: usize,
    height: usize,
    n: usize,
    side: u32,
    row: usize,
    column: usize,
) -> RowView
    ensures { result ≡ view_place (length older.now) (length newer.now) (setting width height n 1) side row column }
{
    let s = Setting {
        width,
        height,
        n,
        measure: 1,
    };
    view::view_place(older.len(), newer.len(), s, side, row, column)
}

// Searches one block, at a row and a column, by the requested search.
#[unsafe(no_mangle)]
pub extern "C" fn gauge_search_block(
    older: &[u8],
    newer: &[u8],
    request: Request,
    row: usize,
    column: usize,
) -> SearchResult
    ensures { result ≡ search_block older.now newer.now request row column }
{
    block::search_block(older, newer, request, row, column)
}

// Searches one block likewise, and then the half-pel neighbours of its vector.
#[unsafe(no_mangle)]
pub extern "C" fn gauge_search_half(
    older: &[u8],
    newer: &[u8],
    request: Request,
    row: usize,
    column: usize,
) -> HalfResult
    ensures { result ≡ search_half older.now newer.now request row column }
{
    half_search::search_half(older, newer, request, row, column)
}

// Searches every grid block: fills list and table, and answers with the reading and the sums.
#[unsafe(no_mangle)]
pub extern "C" fn gauge_field(
    older: &[u8],
    newer: &[u8],
    request: Request,
    list: &mut [i32],
    table: &mut [u32],
) -> FieldAnswer
    ensures { field_result result list.new table.new
        ≡ field older.now newer.now request list.old table.old }
{
    field::field(older, newer, request, list, table)
}

// A new track.
#[unsafe(no_mangle)]
pub extern "C" fn gauge_track_new() -> Track
    ensures { result ≡ track_new }
{
    Track::new()
}

// Homes a track at (y, x).
#[unsafe(no_mangle)]
pub extern "C" fn gauge_home(track: Track, y: i32, x: i32) -> Homed
    ensures { result ≡ track_home track y x }
{
    track.home(y, x)
}

// Steps a track by the travel of a pair.
#[unsafe(no_mangle)]
pub extern "C" fn gauge_step(
    track: Track,
    older: &[u8],
    newer: &[u8],
    request: Request,
    list: &mut [i32],
    table: &mut [u32],
) -> Stepped
    ensures { step_result result list.new table.new
        ≡ track_step track older.now newer.now request list.old table.old }
{
    track.step(older, newer, request, list, table)
}

// Writes the log of a field: head numbers and a list, as bytes in a buffer.
#[unsafe(no_mangle)]
pub extern "C" fn gauge_write_log(head: Head, list: &[i32], buffer: &mut [u8]) -> Written
    ensures { write_result result buffer.new ≡ write_log head list.now buffer.old }
{
    log_writing::write_log(head, list, buffer)
}

// Reads a whole log into a list, and answers with the head's numbers.
#[unsafe(no_mangle)]
pub extern "C" fn gauge_read_log(log: &[u8], list: &mut [i32]) -> LogRead
    ensures { read_result result list.new ≡ read_log log.now list.old }
{
    log_reading::read_log(log, list)
}

// Prints a log: the text that the program writes, over the front of a buffer as far as it fits. Answers with the whole text's length.
#[unsafe(no_mangle)]
pub extern "C" fn gauge_print_log(log: &[u8], buffer: &mut [u8]) -> usize
    ensures { (buffer.new ≡ over_front (print_log log.now) buffer.old)
        × (result ≡ length (print_log log.now)) × (result ≤ longest_text) }
{
    log_text::print_log(log, buffer)
}

// Walks a log: the command at a cursor, and the cursor to go on with.
#[unsafe(no_mangle)]
pub extern "C" fn gauge_walk(log: &[u8], cursor: Place) -> Walked
    ensures { result ≡ walk_from log.now cursor }
{
    log_plain::walk_from(log, cursor)
}
