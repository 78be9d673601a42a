// The reader of one group.
ghost use Rattle.std.specs.Prelude.{drop};
ghost use Rattle.line.specs.Scan.{group};
ghost use Rattle.line.specs.Internal.Places.{Grouped};

use crate::line::Part;
use crate::turn::{State, depth_after, next, noted, put_mark};

// The group at `at`, its words into the row. Words past the end of the row are counted, not stored.
pub(crate) fn read_group(line: &[u8], row: &mut [u32], at: usize, places: bool) -> Option<Part>
    ensures { Grouped at at 0 (group places (drop at line.now)) row.old row.new result }
{
    if line.len() <= at {
        return None;
    }
    if line[at] != b'[' {
        return None;
    }
    let mut n: usize = 0;
    let mut depth: usize = 1;
    let mut state = State::Opened;
    for p in at + 1..line.len() {
        let b = line[p];
        let after = next(state, b)?;
        n = put_mark(row, n, noted(places, depth, state, b));
        depth = depth_after(depth, b);
        state = after;
        if depth == 0 {
            return Some(Part {
                start: at,
                end: p + 1,
                count: n,
            });
        }
    }
    None
}
