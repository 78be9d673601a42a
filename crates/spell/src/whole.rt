// A whole row, printed as the sort that it is.
ghost use Rattle.std.specs.Prelude.{◌≤◌, length};
ghost use Rattle.tree.specs.Form.{pick};
ghost use Rattle.tree.specs.Tag.{expr, pred};
ghost use Rattle.form.specs.Decode.{row_form, form_of};
ghost use Rattle.form.specs.declared.answer.Kind.TheVariants.{Either};
ghost use Rattle.spell.specs.Internal.Writes.{PrintedRow, PrintedForm};

use crate::print::{Spot, print_node};
use form::answer::{Kind, Limit};

// The number of bytes of a row's spelling, if it is one form of the sort.
fn print_sort(row: &[u32], out: &mut [u8], expression: bool) -> Option<usize>
    requires { length row.now ≤ 8192 }
    ensures { PrintedRow (row_form (pick expression expr pred) row.now) out.old out.new result }
{
    let ends = print_node(row, out, Spot { row: 0, out: 0 }, expression, Limit::DEPTH)?;
    if ends.row != row.len() {
        return None;
    }
    Some(ends.out)
}

// The spelling of a row as the sort that its first tag says.
pub(crate) fn print_row(row: &[u32], out: &mut [u8]) -> Option<usize>
    requires { length row.now ≤ 8192 }
    ensures { PrintedForm (form_of Either row.now) out.old out.new result }
{
    let expression = reader::check::is_expr(row, Kind::Either);
    print_sort(row, out, expression)
}
