// How many declarations a row has, where they end and where the body starts.
ghost use Rattle.std.specs.Prelude.{◌≡◌, drop};
ghost use Rattle.reader.specs.Internal.Reads.{decls_within};
ghost use Rattle.decls.specs.Internal.Noted.{end_decls, count_in, decl_end, decls_end, body_start};

use places::positions::expr_end;
use reader::reader::decls_at;
use tree::tag::Tag;

// Where n declarations with flags at `at` end, one of which at least has an annotation and none has one more than so deep.
pub fn skip_decls(row: &[u32], at: usize, n: u32, depth: u32) -> Option<usize>
    ensures { result ≡ end_decls at (decls_within depth 0 n (drop at row.now)) }
{
    let mut marks = [0u32; 1];
    decls_at(row, &mut marks, at, n, depth, 0)
}

// The number of declarations of a row that is a quantified predicate, with or without annotations; 0 for any other.
#[tactic(auto, unfolding(crate::specs::Internal::Noted::count_in))]
pub fn declared(row: &[u32]) -> u32
    ensures { result ≡ count_in row.now }
{
    match row {
        [
            Tag::FOR_ALL | Tag::EXISTS | Tag::NOTED_FOR_ALL | Tag::NOTED_EXISTS,
            n,
            ..
        ] => *n,
        _ => 0,
    }
}

// Where the declaration at p ends, with its flag and its annotation; p itself where there is no room for a name and a flag.
#[tactic(auto, unfolding(crate::specs::Internal::Noted::decl_end))]
pub fn decl_end(row: &[u32], p: usize) -> usize
    ensures { result ≡ decl_end row.now p }
{
    match row.get(p..) {
        Some([_, 0, ..]) => p + 2,
        Some([_, _, ..]) => expr_end(row, p + 2),
        _ => p,
    }
}

// Where n declarations from p on end, each with its flag and its annotation.
#[tactic(auto, using(crate::proofs::NotedLaws::decl_steps))]
pub fn decls_end(row: &[u32], p: usize, n: u32) -> usize
    ensures { result ≡ decls_end row.now p n }
{
    let mut at = p;
    for _ in 0..n {
        at = decl_end(row, at);
    }
    at
}

// Where the body of a row with n declarations starts: behind their names, or behind their annotations where it has the tag for those.
#[tactic(auto, unfolding(crate::specs::Internal::Noted::body_start))]
pub fn body_start(row: &[u32], n: u32) -> usize
    ensures { result ≡ body_start row.now n }
{
    match row.first() {
        Some(tag) if *tag >= 860 => decls_end(row, 2, n),
        _ => 2 + n as usize,
    }
}
