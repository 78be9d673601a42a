// Fill: some declarations of a quantified predicate are replaced by expressions; the others are kept and renumbered.
ghost use Rattle.std.specs.Prelude.{◌≡◌, ◌+◌, ◌≤◌, length, get_or, drop};
ghost use Rattle.form.specs.Answer.{told, written};
ghost use Rattle.rules.specs.Fill.{fill_outcome};
ghost use Rattle.replace.specs.Internal.Pieces.{Ready, fill_plan};
ghost use Rattle.listed.specs.Internal.Listed.{Placed, plain_source, noted_source, filled_by, filled_row};

use crate::marks::{list_refusal, mark_entries, mark_row};
use broken::position::{broken_at, broken_list};
use decls::ends::{body_start, declared};
use decls::heads::write_noted;
use form::answer::{Answer, Kind, Limit, ListKind, Refusal};
use reader::lists::Table;
use replace::heads::write_head;
use replace::pieces::Source;
use replace::small::depth_left_by;
use replace::tables::fill_places;
use tree::tag::Tag;

// The quantified predicate without annotations that the source's row is, with its declarations filled by the places of the table.
fn fill_plain(sure: bool, source: Source, out: &mut [u32]) -> Answer
    requires ready { Placed source }
    requires n_in_bounds { 2 + source.table.now.n ≤ length source.row.now }
    ensures value { result ≡ told (plain_source sure source.entry (length out.old)) }
    ensures out_after { out.new ≡ written (plain_source sure source.entry (length out.old)) out.old }
{
    let table = source.table;
    let mut head = [0u32; 34];
    let h = write_head(&table.words[..table.n], source.row, &mut head);
    fill_places(&head[..h], source, 2 + table.n, 0, sure, out)
}

// The same with annotations: those of the declarations that are kept stay as they are, so the head may be as long as the row, of at most N words.
// The head lies in a frame of its own.
#[inline(never)]
fn fill_noted<const N: usize>(sure: bool, source: Source, out: &mut [u32]) -> Answer
    requires ready { Placed source }
    requires n_in_bounds { (2 + source.table.now.n ≤ length source.row.now) × (length source.row.now ≤ N) × (N ≤ 8192) × (860 ≤ get_or source.row.now 0 0) }
    ensures value { result ≡ told (noted_source sure source.entry (length out.old)) }
    ensures out_after { out.new ≡ written (noted_source sure source.entry (length out.old)) out.old }
{
    let table = source.table;
    let row = source.row;
    let mut head = [0u32; N];
    let h = write_noted(row[0] - 10, &table.words[..table.n], row, &mut head);
    let from = body_start(row, table.n as u32);
    fill_places(&head[..h], source, from, 0, sure, out)
}

// The same, with annotations or without.
fn fill_with(sure: bool, source: Source, out: &mut [u32]) -> Answer
    requires ready { Placed source }
    requires n_in_bounds { (2 + source.table.now.n ≤ length source.row.now) × (length source.row.now ≤ 8192) }
    ensures value { result ≡ told (filled_by sure source.entry (length out.old)) }
    ensures out_after { out.new ≡ written (filled_by sure source.entry (length out.old)) out.old }
{
    if source.row[0] < 860 {
        return fill_plain(sure, source, out);
    }
    if source.row.len() <= 256 {
        return fill_noted::<256>(sure, source, out);
    }
    fill_noted::<8192>(sure, source, out)
}

// Fill where the form's marks stand at the start of the work row, and the list's from word 8,192 on.
fn fill_marked(
    sure: bool,
    list: &[u32],
    row: &[u32],
    table: &Table,
    work: &[u32],
    out: &mut [u32],
) -> Answer
    requires in_bounds { 8192 ≤ length work.now }
    requires ready { Ready (fill_plan table.now) list.now (drop 8192 work.now) }
    requires n_in_bounds { (2 + table.now.n ≤ length row.now) × (length row.now ≤ 8192) }
    ensures value { result ≡ told (filled_row sure list.now (drop 8192 work.now) row.now work.now table.now (length out.old)) }
    ensures out_after { out.new ≡ written (filled_row sure list.now (drop 8192 work.now) row.now work.now table.now (length out.old)) out.old }
{
    let source = Source {
        table: table,
        list: list,
        list_marks: &work[8192..],
        row: row,
        marks: work,
    };
    fill_with(sure, source, out)
}

// Replaces the filled declarations of a quantified predicate by their expressions. A declaration whose place is missing at the end of the
// list is kept.
pub fn instantiate(list: &[u32], row: &[u32], work: &mut [u32], out: &mut [u32]) -> Answer
    ensures value { result ≡ told (fill_outcome list.now row.now (length work.old) (length out.old)) }
    ensures out_after { out.new ≡ written (fill_outcome list.now row.now (length work.old) (length out.old)) out.old }
{
    if work.len() < 16384 {
        return Err(Refusal::WorkTooShort);
    }
    if Limit::WORDS < row.len() {
        return Err(Refusal::TooLong);
    }
    if Limit::WORDS < list.len() {
        return Err(list_refusal(row, Kind::Predicate));
    }
    let mut table = Table::new();
    let is_list = mark_entries(list, ListKind::Places, work, &mut table);
    let depth = depth_left_by(&table, list);
    let Some(sure) = mark_row(row, Kind::Predicate, depth, work) else {
        return Err(Refusal::Broken(broken_at(row, Kind::Predicate)));
    };
    if !is_list {
        return Err(Refusal::Broken(broken_list(list, ListKind::Places)));
    }
    let names = declared(row);
    if names == 0 {
        return Err(Refusal::NotQuantified);
    }
    let n = names as usize;
    if n < table.n {
        return Err(Refusal::TooManyPlaces);
    }
    // The words behind those of the list are 0, so the places that are missing count as kept.
    table.n = n;
    fill_marked(sure, list, row, &table, work, out)
}
