// Free substitution: each name of the list, where it is free, becomes its expression lifted by the depth.
ghost use Rattle.std.specs.Prelude.{◌≡◌, [], ◌≤◌, length, drop};
ghost use Rattle.form.specs.Answer.{told, written};
ghost use Rattle.reader.specs.Internal.Reads.{as_expr};
ghost use Rattle.form.specs.declared.answer.Kind.TheVariants.{Either};
ghost use Rattle.rules.specs.Free.{free_outcome};
ghost use Rattle.replace.specs.Internal.Pieces.{Ready, replaced, free_plan};
ghost use Rattle.listed.specs.Internal.Listed.{kind_for};

use crate::marks::{list_refusal, mark_entries, mark_row};
use broken::position::{broken_at, broken_list};
use form::answer::{Answer, Kind, Limit, ListKind, Refusal};
use reader::check::is_expr;
use reader::lists::{Table, good_table};
use replace::pieces::Source;
use replace::small::depth_left_by;
use replace::tables::free_names;

fn kind_of(row: &[u32]) -> Kind
    ensures { result ≡ kind_for (as_expr Either row.now) }
{
    if is_expr(row, Kind::Either) {
        return Kind::Expression;
    }
    Kind::Predicate
}

// The names of a form replaced by the entries of a table; the form's marks stand at the start of the work row,
// the list's from word 8,192 on.
fn substitute_marked(
    sure: bool,
    list: &[u32],
    row: &[u32],
    table: &Table,
    work: &[u32],
    out: &mut [u32],
) -> Answer
    requires in_bounds { 8192 ≤ length work.now }
    requires ready { Ready (free_plan table.now) list.now (drop 8192 work.now) }
    ensures value { result ≡ told (replaced sure (kind_for (as_expr Either row.now)) [] (free_plan table.now) list.now (drop 8192 work.now) row.now work.now (length out.old)) }
    ensures out_after { out.new ≡ written (replaced sure (kind_for (as_expr Either row.now)) [] (free_plan table.now) list.now (drop 8192 work.now) row.now work.now (length out.old)) out.old }
{
    let source = Source {
        table: table,
        list: list,
        list_marks: &work[8192..],
        row: row,
        marks: work,
    };
    free_names(kind_of(row), source, sure, out)
}

// Replaces each free name of the list by its expression, lifted by the depth at which it comes to stand.
pub fn substitute_free_idents(
    list: &[u32],
    row: &[u32],
    work: &mut [u32],
    out: &mut [u32],
) -> Answer
    ensures value { result ≡ told (free_outcome list.now row.now (length work.old) (length out.old)) }
    ensures out_after { out.new ≡ written (free_outcome list.now row.now (length work.old) (length out.old)) out.old }
{
    if work.len() < 16384 {
        return Err(Refusal::WorkTooShort);
    }
    if Limit::WORDS < row.len() {
        return Err(Refusal::TooLong);
    }
    if Limit::WORDS < list.len() {
        return Err(list_refusal(row, Kind::Either));
    }
    let mut table = Table::new();
    let is_list = mark_entries(list, ListKind::Pairs, work, &mut table);
    let depth = depth_left_by(&table, list);
    let Some(sure) = mark_row(row, Kind::Either, depth, work) else {
        return Err(Refusal::Broken(broken_at(row, Kind::Either)));
    };
    if !is_list {
        return Err(Refusal::Broken(broken_list(list, ListKind::Pairs)));
    }
    if !good_table(&table) {
        return Err(Refusal::BadNames);
    }
    substitute_marked(sure, list, row, &table, work, out)
}
