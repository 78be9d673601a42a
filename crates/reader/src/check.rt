// The shape check: whether a row is exactly one form of the kind asked for, within the limits.
ghost use Rattle.std.specs.Prelude.{◌≡◌};
ghost use Rattle.tree.specs.Form.{pick};
ghost use Rattle.tree.specs.Tag.{expr, pred};
ghost use Rattle.form.specs.Decode.{decode, form_of};
ghost use Rattle.form.specs.Answer.{told, check_outcome};
ghost use Rattle.reader.specs.Internal.Reads.{Told, has_form, Marked, known, known_at, as_expr, of_kind};

use crate::reader::{mark_expr, mark_pred};
use broken::position::broken_at;
use form::answer::{Answer, Kind, Limit, Refusal};
use tree::tag::{Shape, expr_shape};

fn is_known(shape: Shape) -> bool
    ensures { result ≡ known shape }
{
    !matches!(shape, Shape::Unknown)
}

// Whether the row begins with the tag of an expression.
fn begins_expr(row: &[u32]) -> bool
    ensures { result ≡ known_at row.now }
{
    if row.len() == 0 {
        return false;
    }
    is_known(expr_shape(row[0]))
}

// Whether the row is read as an expression: as the kind says, or by its first tag.
pub fn is_expr(row: &[u32], kind: Kind) -> bool
    ensures { result ≡ as_expr kind row.now }
{
    match kind {
        Kind::Expression => true,
        Kind::Predicate => false,
        Kind::Either | Kind::Named => begins_expr(row),
    }
}

// Whether a row that is one form of its sort is of the kind: a named one has no index, and then it breaks nowhere before its end.
pub fn is_of_kind(row: &[u32], kind: Kind) -> bool
    ensures { result ≡ of_kind kind row.now }
{
    match kind {
        Kind::Expression => true,
        Kind::Predicate => true,
        Kind::Either => true,
        Kind::Named => broken_at(row, kind) as usize == row.len(),
    }
}

fn first_form(row: &[u32], is_expr: bool, marks: &mut [u32]) -> Option<usize>
    ensures { Told 0 0 (decode 64 (pick is_expr expr pred) row.now) marks.old marks.new result }
{
    if is_expr {
        mark_expr(row, marks, 0, Limit::DEPTH, 0)
    } else {
        mark_pred(row, marks, 0, Limit::DEPTH, 0)
    }
}

// Whether the row is exactly one form of the kind, within the limits; its names and indices are then marked. Where it is none, the marks are
// free: they are a work row.
pub fn mark_form(row: &[u32], kind: Kind, marks: &mut [u32]) -> bool
    ensures value { result ≡ has_form (form_of kind row.now) }
    ensures marked { Marked (form_of kind row.now) marks.old marks.new }
{
    if Limit::WORDS < row.len() {
        return false;
    }
    let Some(p) = first_form(row, is_expr(row, kind), marks) else {
        return false;
    };
    if p == row.len() {
        return is_of_kind(row, kind);
    }
    false
}

// Whether the row is exactly one form of the kind, within the limits.
pub fn is_form(row: &[u32], kind: Kind) -> bool
    ensures { result ≡ has_form (form_of kind row.now) }
{
    let mut marks = [0u32; 1];
    mark_form(row, kind, &mut marks)
}

// The check, which also marks the names and indices of the form, and says where a row that is none breaks.
pub fn mark(row: &[u32], kind: Kind, marks: &mut [u32]) -> Answer
    ensures value { result ≡ told (check_outcome kind row.now) }
    ensures marked { Marked (form_of kind row.now) marks.old marks.new }
{
    if Limit::WORDS < row.len() {
        return Err(Refusal::TooLong);
    }
    if mark_form(row, kind, marks) {
        return Ok(0);
    }
    Err(Refusal::Broken(broken_at(row, kind)))
}

// The check of a row that is to be one form of the kind.
pub fn check(row: &[u32], kind: Kind) -> Answer
    ensures { result ≡ told (check_outcome kind row.now) }
{
    let mut marks = [0u32; 1];
    mark(row, kind, &mut marks)
}
