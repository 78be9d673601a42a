// What a table puts for names and places, and words put into a row that has room for them.
ghost use Rattle.std.specs.Prelude.{◌≡◌, ◌+◌, ◌≤◌, leb, length, take, drop};
ghost use Rattle.tree.specs.Form.{pick};
ghost use Rattle.form.specs.Answer.{told, written};
ghost use Rattle.shift.specs.Internal.Items.{items, rewritten, moved_words, store};
ghost use Rattle.replace.specs.Internal.Pieces.{filled_words, parts_in, Rows, is_ready};
ghost use Rattle.replace.specs.Internal.Job.{filled_source, freed_source};

use crate::build::replace;
use crate::emit::copy;
use crate::pieces::{Job, Rule, Source, Target, filled_from, write_part};
use form::answer::{Answer, Kind, Refusal};
use reader::lists::Table;

// Whether each of the table's parts lies in a row of so many words.
fn are_inside(table: &Table, words: usize) -> bool
    requires { table.now.n ≤ 32 }
    ensures { result ≡ parts_in table.now.starts table.now.ends words table.now.n }
{
    for i in 0..table.n {
        if table.ends[i] < table.starts[i] || words < table.ends[i] {
            return false;
        }
    }
    true
}

// Whether a table has at most 32 entries, whose parts lie in the list row, and all of that is marked.
fn is_ready(table: &Table, list: &[u32], list_marks: &[u32]) -> bool
    ensures value { result ≡ is_ready table.now list.now list_marks.now }
    ensures rows { Rows table.now }
{
    if Table::LIMIT < table.n || list_marks.len() < list.len() {
        return false;
    }
    are_inside(table, list.len())
}

// How many of the table's words are not 0.
fn filled_places(table: &Table) -> u32
    requires { table.now.n ≤ 32 }
    ensures { result ≡ filled_words (take table.now.n table.now.words) }
{
    filled_from(&table.words[..table.n], 0)
}

// The head, and the source's items from `from` on with their outermost declarations filled by the places of its table, whose expressions are
// moved down: as a predicate, of which only the length is checked where it is sure to be one.
pub fn fill_places(
    head: &[u32],
    source: Source,
    from: usize,
    down: u32,
    sure: bool,
    out: &mut [u32],
) -> Answer
    ensures value { result ≡ told (filled_source sure head.now source.entry from down (length out.old)) }
    ensures out_after { out.new ≡ written (filled_source sure head.now source.entry from down (length out.old)) out.old }
{
    if !is_ready(source.table, source.list, source.list_marks) {
        return Err(Refusal::OutOfLimits);
    }
    let rule = Rule {
        target: Target::Places,
        gone: filled_places(source.table),
        down: down,
    };
    let job = Job {
        rule: rule,
        source: source,
        from: from,
    };
    replace(sure, Kind::Predicate, head, job, out)
}

// The names of the source's row replaced by the entries of its table: as a form of the kind, of which only the length is checked where it is
// sure to be one.
pub fn free_names(kind: Kind, source: Source, sure: bool, out: &mut [u32]) -> Answer
    ensures value { result ≡ told (freed_source sure kind source.entry (length out.old)) }
    ensures out_after { out.new ≡ written (freed_source sure kind source.entry (length out.old)) out.old }
{
    if !is_ready(source.table, source.list, source.list_marks) {
        return Err(Refusal::OutOfLimits);
    }
    let rule = Rule {
        target: Target::Names,
        gone: 0,
        down: 0,
    };
    let job = Job {
        rule: rule,
        source: source,
        from: 0,
    };
    replace(sure, kind, &[], job, out)
}

// The words of a form with its dangling indices moved up, stored at `at`, where there is room for all of them.
pub fn put_lifted(row: &[u32], marks: &[u32], up: u32, out: &mut [u32], at: usize)
    ensures { out.new ≡ pick (leb (at + length row.now) (length out.old)) (store out.old at (rewritten (moved_words up 0) (items row.now marks.now))) out.old }
{
    if out.len() < row.len() {
        return;
    }
    if out.len() - row.len() < at {
        return;
    }
    write_part(row, marks, up, 0, out, at);
}

// The words, stored at `at`, where there is room for all of them.
pub fn put_words(words: &[u32], out: &mut [u32], at: usize)
    ensures { out.new ≡ pick (leb (at + length words.now) (length out.old)) (store out.old at words.now) out.old }
{
    if out.len() < words.len() {
        return;
    }
    if out.len() - words.len() < at {
        return;
    }
    copy(words, out, at);
}
