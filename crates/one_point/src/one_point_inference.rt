// One point: a quantified predicate is reduced by the first equality that its body offers.
ghost use Rattle.std.specs.Prelude.{◌≡◌, length};
ghost use Rattle.form.specs.Answer.{told, written};
ghost use Rattle.rules.specs.Point.{point_outcome};
ghost use Rattle.one_point.specs.Internal.Reduce.{quantifier_in};

use crate::reduce::{Depth, reduce};
use broken::position::broken_at;
use decls::ends::{declared, skip_decls};
use form::answer::{Answer, Kind, Limit, Refusal};
use form::head::{Head, pred_head};

// Where the body of the quantified predicate begins that the row is.
fn quantifier_of(row: &[u32]) -> Option<usize>
    ensures { result ≡ quantifier_in row.now }
{
    if declared(row) == 0 {
        return None;
    }
    let head = pred_head(row, 1, row[0])?;
    match head {
        Head::Kids(start, _, _, _) => Some(start),
        Head::Noted(start, _, _, n) => skip_decls(row, start, n, Depth::MOST),
    }
}

// The quantified predicate in the row, reduced.
pub fn one_point_inference(row: &[u32], work: &mut [u32], out: &mut [u32]) -> Answer
    ensures value { result ≡ told (point_outcome row.now (length work.old) (length out.old)) }
    ensures out_after { out.new ≡ written (point_outcome row.now (length work.old) (length out.old)) out.old }
{
    if work.len() < 16384 {
        return Err(Refusal::WorkTooShort);
    }
    if Limit::WORDS < row.len() {
        return Err(Refusal::TooLong);
    }
    let Some(start) = quantifier_of(row) else {
        reader::check::check(row, Kind::Predicate)?;
        return Err(Refusal::NothingToRewrite);
    };
    let Some(answer) = reduce(&row[..start], &row[start..], work, out) else {
        return Err(Refusal::Broken(broken_at(row, Kind::Predicate)));
    };
    answer
}
