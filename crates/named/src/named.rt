// Named: a form in which each occurrence is a name becomes the form with indices.
ghost use Rattle.std.specs.Prelude.{◌≡◌, ◌≤◌, length};
ghost use Rattle.form.specs.Answer.{told, written};
ghost use Rattle.rules.specs.Named.{named_outcome};
ghost use Rattle.named.specs.Internal.Reads.{Blank};
ghost use Rattle.named.specs.Internal.Scope.{Sized};

use crate::read::name_form;
use broken::position::broken_at;
use form::answer::{Answer, Kind, Limit, Refusal};
use reader::check::is_expr;

// Named, with rows of its own for the words that are made and for the open declarations.
fn named_in(row: &[u32], made: &mut [u32], scope: &mut [u32], out: &mut [u32]) -> Answer
    requires { Blank row.now made.old scope.old }
    ensures value { result ≡ told (named_outcome row.now (length out.old)) }
    ensures out_after { out.new ≡ written (named_outcome row.now (length out.old)) out.old }
{
    let expression = is_expr(row, Kind::Named);
    let Some(end) = name_form(row, made, scope, 0, expression, Limit::DEPTH, 0) else {
        return Err(Refusal::Broken(broken_at(row, Kind::Named)));
    };
    if end != row.len() {
        return Err(Refusal::Broken(broken_at(row, Kind::Named)));
    }
    if out.len() < end {
        return Err(Refusal::OutputTooShort);
    }
    out[..end].copy_from_slice(&made[..end]);
    Ok(end)
}

// Named for rows of at most N words, with M for the open declarations and their slots: both rows lie in a frame of their own.
#[inline(never)]
fn named_sized<const N: usize, const M: usize>(row: &[u32], out: &mut [u32]) -> Answer
    requires row_in_bounds { (length row.now ≤ N) × (N ≤ 8192) }
    requires sized { Sized (length row.now) M }
    ensures value { result ≡ told (named_outcome row.now (length out.old)) }
    ensures out_after { out.new ≡ written (named_outcome row.now (length out.old)) out.old }
{
    let mut made = [0u32; N];
    let mut scope = [0u32; M];
    named_in(row, &mut made, &mut scope, out)
}

// Makes an index of each occurrence that a declaration binds: the innermost declaration of its name, in one quantifier the last. The row must
// hold no index.
pub fn to_indices(row: &[u32], out: &mut [u32]) -> Answer
    ensures value { result ≡ told (named_outcome row.now (length out.old)) }
    ensures out_after { out.new ≡ written (named_outcome row.now (length out.old)) out.old }
{
    match row.len() {
        0..=64 => named_sized::<64, 512>(row, out),
        65..=512 => named_sized::<512, 4096>(row, out),
        513..=2048 => named_sized::<2048, 12288>(row, out),
        2049..=Limit::WORDS => named_sized::<8192, 36864>(row, out),
        _ => Err(Refusal::TooLong),
    }
}
