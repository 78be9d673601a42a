// Marks in the work row: the form's at its start, the list's from word 8,192 on.
ghost use Rattle.std.specs.Prelude.{◌≡◌, ◌+◌, ◌≤◌, length, take, drop, replicate};
ghost use Rattle.tree.specs.Form.{pick};
ghost use Rattle.tree.specs.Tag.{expr, pred};
ghost use Rattle.form.specs.Break.{break_at};
ghost use Rattle.form.specs.Decode.{decode, form_of};
ghost use Rattle.form.specs.Lists.{list_of};
ghost use Rattle.reader.specs.Internal.Reads.{Told, Marked, emptied, Listing};
ghost use Rattle.form.specs.declared.answer.Refusal.TheVariants.{TooLong, Broken};
ghost use Rattle.shift.specs.Internal.Items.{store};
ghost use Rattle.replace.specs.Internal.Pieces.{has_form};
ghost use Rattle.listed.specs.Internal.Listed.{shallow_form, reading_of};

use broken::position::broken_at;
use form::answer::{Kind, ListKind, Refusal};
use reader::check::{is_expr, is_form, is_of_kind, mark_form};
use reader::lists::{Table, mark_list};
use reader::reader::{expr_at, pred_at};

fn clear(work: &mut [u32], at: usize, n: usize)
    requires { at + n ≤ length work.old }
    ensures { work.new ≡ store work.old at (replicate n 0) }
{
    work[at..at + n].fill(0);
}

fn shallow_form(row: &[u32], is_expr: bool, depth: u32, marks: &mut [u32]) -> Option<usize>
    requires { depth ≤ 64 }
    ensures { Told 0 0 (decode depth (pick is_expr expr pred) row.now) marks.old marks.new result }
{
    if is_expr {
        expr_at(row, marks, 0, depth, 0)
    } else {
        pred_at(row, marks, 0, depth, 0)
    }
}

// Whether the row is exactly one form of the kind at most so deep, which is then marked.
fn mark_shallow(row: &[u32], kind: Kind, depth: u32, marks: &mut [u32]) -> bool
    requires { depth ≤ 64 }
    ensures value { result ≡ has_form (shallow_form depth kind row.now) }
    ensures marked { Marked (shallow_form depth kind row.now) marks.old marks.new }
{
    let Some(p) = shallow_form(row, is_expr(row, kind), depth, marks) else {
        return false;
    };
    p == row.len() && is_of_kind(row, kind)
}

// Whether the row, if it is a form of the kind, is at most so deep; None where it is no such form. A form is marked at the start of the marks.
fn mark_front(row: &[u32], kind: Kind, depth: u32, marks: &mut [u32]) -> Option<bool>
    requires depth_bound { depth ≤ 64 }
    requires row_in_bounds { length row.now ≤ length marks.old }
    requires row_len_bound { length row.now ≤ 8192 }
    ensures value { result ≡ reading_of (shallow_form depth kind row.now) (form_of kind row.now) }
    ensures marked { Marked (form_of kind row.now) (replicate (length row.now) 0) (take (length row.now) marks.new) }
{
    clear(marks, 0, row.len());
    if mark_shallow(row, kind, depth, marks) {
        return Some(true);
    }
    clear(marks, 0, row.len());
    if mark_form(row, kind, marks) {
        return Some(false);
    }
    None
}

// The same in the first 8,192 words of the work row.
pub(crate) fn mark_row(row: &[u32], kind: Kind, depth: u32, work: &mut [u32]) -> Option<bool>
    requires depth_bound { depth ≤ 64 }
    requires in_bounds { 8192 ≤ length work.old }
    requires row_len_bound { length row.now ≤ 8192 }
    ensures value { result ≡ reading_of (shallow_form depth kind row.now) (form_of kind row.now) }
    ensures marked { Marked (form_of kind row.now) (replicate (length row.now) 0) (take (length row.now) work.new) }
    ensures work_unchanged { drop 8192 work.new ≡ drop 8192 work.old }
{
    mark_front(row, kind, depth, &mut work[..8192])
}

// The refusal of a list that is too long: the row's own comes first.
pub(crate) fn list_refusal(row: &[u32], kind: Kind) -> Refusal
    ensures { result ≡ pick (has_form (form_of kind row.now)) TooLong (Broken (break_at kind row.now)) }
{
    if is_form(row, kind) {
        Refusal::TooLong
    } else {
        Refusal::Broken(broken_at(row, kind))
    }
}

// Whether the list's entries, which are marked from word 8,192 of the work row on, were read into the table.
pub(crate) fn mark_entries(
    list: &[u32],
    kind: ListKind,
    work: &mut [u32],
    table: &mut Table,
) -> bool
    requires { 8192 + length list.now ≤ length work.old }
    ensures { Listing (list_of kind list.now) (emptied table.old) table.new (replicate (length list.now) 0) (take (length list.now) (drop 8192 work.new)) result }
{
    clear(work, 8192, list.len());
    mark_list(list, kind, &mut work[8192..], table)
}
