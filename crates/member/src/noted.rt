// Declarations round a body with the places of a table filled, where there are annotations among them or on the body's own.
ghost use Rattle.std.specs.Prelude.{◌≡◌, true, false, List, [], ◌+◌, ◌≤◌, ◌<◌, length, get_or, drop, replicate};
ghost use Rattle.tree.specs.Tag.{pred};
ghost use Rattle.form.specs.Answer.{told, written, finish};
ghost use Rattle.rules.specs.Fill.{Decl};
ghost use Rattle.replace.specs.Internal.Pieces.{Ready, down_plan, placed_row};
ghost use Rattle.member.specs.Internal.Member.{SetIn, FillingOf, filled_body};
ghost use Rattle.member.specs.Internal.Noted.{FlaggedIn, no_zero, front_alone, notes_end, notes_clear, notes_join, front_filled, notes_of, round_of};

use crate::filling::front_of;
use crate::member::Comprehension;
use crate::shares::fill_place;
use decls::ends::decls_end;
use decls::heads::{flag_names, write_noted};
use decls::used::clear_used;
use form::answer::{Answer, Refusal};
use reader::lists::Table;
use replace::pieces::Source;
use replace::tables::fill_places;
use rounds::rounds::round_head;
use tree::tag::Tag;

// Whether declarations are kept, and all of them stand before the first filled place, where j of them do.
#[tactic(auto, using(crate::proofs::NotedSteps::zero_tests), unfolding(crate::specs::Internal::Noted::front_alone))]
fn front_alone(words: &[u32], j: usize) -> bool
    requires { j ≤ length words.now }
    ensures { result ≡ front_alone words.now j }
{
    j != 0 && !words[j..].contains(&0)
}

// Whether the annotations of the body's own declarations use none of the first j of the n declarations round it. Each of these has a word, behind
// one that is passed over.
#[tactic(auto, using(crate::proofs::NotedSteps::zero_tests), unfolding(crate::specs::Internal::Noted::notes_clear))]
fn are_clear(body: &[u32], marks: &[u32], n: usize, j: usize) -> bool
    requires { (2 ≤ length body.now) × (n ≤ 32) × (j ≤ n) }
    ensures { result ≡ notes_clear body.now marks.now n j }
{
    let mut all = [1u32; 33];
    let words = &mut all[..n + 1];
    let end = decls_end(body, 2, body[1]);
    clear_used(body, marks, 2, end, n as u32, words);
    !words[1..j + 1].contains(&0)
}

// Whether declarations that are to join the body's own can join annotated ones: the body is an existence with annotations, which are clear.
#[tactic(auto, unfolding(crate::specs::Internal::Noted::notes_join))]
fn joins_notes(joins: bool, body: &[u32], marks: &[u32], n: usize, j: usize) -> bool
    requires { (n ≤ 32) × (j ≤ n) }
    ensures { result ≡ notes_join joins body.now marks.now n j }
{
    joins && 2 <= body.len() && body[0] == Tag::NOTED_EXISTS && are_clear(body, marks, n, j)
}

// The table with its first j places filled too, by the part of the last one. What stands for them is never read.
fn fill_front(table: &Table, j: usize) -> Table
    requires { (0 < table.now.n) × (table.now.n ≤ 32) × (j ≤ table.now.n) }
    ensures { result ≡ front_filled table.now j }
{
    let start = table.starts[table.n - 1];
    let end = table.ends[table.n - 1];
    let mut front = *table;
    for i in 0..j {
        fill_place(&mut front, i, start, end);
    }
    front
}

// The declarations that are kept round the body, with its places filled: nothing is joined, and the head is short.
fn fill_apart(decls: &[u32], source: &Source, out: &mut [u32]) -> Answer
    requires { (source.now.table.now.n ≤ 32) × (length source.now.table.now.words ≡ 32) × (length decls.now ≤ 256) }
    ensures value { result ≡ told (round_of decls.now false false [] source.now (length out.old)) }
    ensures out_after { out.new ≡ written (round_of decls.now false false [] source.now (length out.old)) out.old }
{
    let mut head = [0u32; 256];
    let h = write_noted(
        Tag::EXISTS,
        &source.table.words[..source.table.n],
        decls,
        &mut head,
    );
    fill_places(&head[..h], *source, 0, 0, false, out)
}

// The head of the declarations that are kept, joined with the body's own quantifier where that is said, round the rest of the body with its
// places filled.
fn fill_round(
    decls: &[u32],
    joins: bool,
    clear: bool,
    notes: &[u32],
    source: &Source,
    out: &mut [u32],
) -> Answer
    requires { (source.now.table.now.n ≤ 32) × (length source.now.table.now.words ≡ 32) }
    ensures value { result ≡ told (round_of decls.now joins clear notes.now source.now (length out.old)) }
    ensures out_after { out.new ≡ written (round_of decls.now joins clear notes.now source.now (length out.old)) out.old }
{
    if !joins && decls.len() <= 256 {
        return fill_apart(decls, source, out);
    }
    let mut head = [0u32; 8192];
    let round = round_head(
        Tag::EXISTS,
        &source.table.words[..source.table.n],
        decls,
        joins,
        clear,
        notes,
        source.row,
        &mut head,
    )
    .ok_or(Refusal::OutOfLimits)?;
    fill_places(&head[..round.words], *source, round.from, 0, false, out)
}

// Joined with the annotated declarations of the body's own quantifier, in whose annotations all places are filled.
fn join_notes(decls: &[u32], j: usize, source: &Source, out: &mut [u32]) -> Answer
    requires n_nonzero { (0 < source.now.table.now.n) × (source.now.table.now.n ≤ 32) × (j ≤ source.now.table.now.n) × (length source.now.table.now.words ≡ 32) × Ready (down_plan (front_filled source.now.table.now j) 0) source.now.list.now source.now.list_marks.now }
    requires in_bounds { (2 ≤ length source.now.row.now) × (notes_end source.now.row.now ≤ length source.now.row.now) × (get_or source.now.row.now 0 0 ≡ 862) }
    ensures value { result ≡ told (round_of decls.now true true (notes_of source.now j) source.now (length out.old)) }
    ensures out_after { out.new ≡ written (round_of decls.now true true (notes_of source.now j) source.now (length out.old)) out.old }
{
    let end = decls_end(source.row, 2, source.row[1]);
    let front = fill_front(source.table, j);
    let mut notes = [0u32; 8192];
    let part = Source {
        table: &front,
        row: &source.row[..end],
        ..*source
    };
    let Ok(long) = fill_places(&[], part, 2, 0, true, &mut notes) else {
        return Err(Refusal::OutOfLimits);
    };
    fill_round(decls, true, true, &notes[..long], source, out)
}

// The declarations with flags from word 2 on of `decls` round the body, with its places filled.
fn fill_flagged(decls: &[u32], source: &Source, out: &mut [u32]) -> Answer
    requires { (ds : List Decl) × FlaggedIn decls.now ds × FillingOf (length ds) source.now }
    ensures value { (ds : List Decl) (x : FlaggedIn decls.now ds) (y : FillingOf (length ds) source.now) → result ≡ told (finish pred (length out.old) (filled_body ds y.places y.body)) }
    ensures out_after { (ds : List Decl) (x : FlaggedIn decls.now ds) (y : FillingOf (length ds) source.now) → out.new ≡ written (finish pred (length out.old) (filled_body ds y.places y.body)) out.old }
{
    let words = &source.table.words[..source.table.n];
    let j = front_of(words);
    let joins = front_alone(words, j);
    if joins_notes(joins, source.row, source.marks, source.table.n, j) {
        return join_notes(decls, j, source, out);
    }
    fill_round(decls, joins, false, &[], source, out)
}

// The declarations of the comprehension round the body, with its places filled.
#[tactic(auto, using(crate::proofs::BodyLaws::positions))]
pub(crate) fn fill_noted(set: Comprehension, source: &Source, out: &mut [u32]) -> Answer
    requires { SetIn source.now.list.now set × FillingOf set.n source.now × (length source.now.list.now ≤ 8192) }
    ensures value { (x : SetIn source.now.list.now set) (y : FillingOf set.n source.now) → result ≡ told (finish pred (length out.old) (filled_body x.decls y.places y.body)) }
    ensures out_after { (x : SetIn source.now.list.now set) (y : FillingOf set.n source.now) → out.new ≡ written (finish pred (length out.old) (filled_body x.decls y.places y.body)) out.old }
{
    let row = source.list;
    if row[set.at] != Tag::COMPREHENSION_SET {
        return fill_flagged(&row[set.at + 1..], source, out);
    }
    let mut flags = [0u32; 66];
    let e = flag_names(&row[set.at + 3..set.guard], &mut flags);
    fill_flagged(&flags[..e], source, out)
}
