//! The length of a row's line, which is told without writing it.
ghost use Rattle.std.specs.Prelude.{◌≡◌, ◌≤◌, All, length, min};
ghost use Rattle.log_text.specs.Lines.{line_of_row};

use crate::count::Count;
use crate::rows::put_row;
use log_model::LogRow;

/// The bytes of a row's line, its line feed with it, up to 18,446,744,073,709,551,615.
#[inline(always)]
#[tactic(auto, using(crate::proofs::ByteLaws::counted_line))]
pub fn count_line(row: &LogRow) -> Count
    ensures { result ≡ min (length (line_of_row row.now)) 18446744073709551615 }
{
    let mut count = Count::new();
    put_row(&mut count, row);
    count
}

/// The length of a row's line, its line feed with it, which is at most 4,294,967,295. It takes no memory.
pub fn line_length(row: &LogRow) -> u32
    requires { length (line_of_row row.now) ≤ 4294967295 }
    ensures { result ≡ length (line_of_row row.now) }
{
    count_line(row).bytes() as u32
}

/// At least as many bytes as before, and as the line of a row has.
fn room_for_more(most: usize, row: &LogRow) -> usize
    ensures before { most ≤ result }
    ensures row { min (length (line_of_row row.now)) 18446744073709551615 ≤ result }
{
    most.max(count_line(row).most())
}

/// At least as many bytes as the line of each row has, up to 18,446,744,073,709,551,615; 0 where there is no row.
pub fn room_for_all(rows: &[LogRow]) -> usize
    ensures { All (λ row. min (length (line_of_row row)) 18446744073709551615 ≤ result) rows.now }
{
    let mut most = 0;
    for row in rows {
        most = room_for_more(most, row);
    }
    most
}
