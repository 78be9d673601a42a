// A reading place: a lent row kept with a position in it.
#![tactic(auto)]

ghost use Rattle.std.specs.Prelude.{◌≡◌, leb, length, get_or, slice_get};
ghost use Rattle.form.specs.Answer.{told};
ghost use Rattle.decls.specs.Internal.Noted.{count_in};
ghost use Rattle.cursor.specs.Read.{next_at, opening_of, declared_outcome};

use form::answer::{Answer, Kind, Refusal};
use tree::tag::Tag;

#[derive(Clone, Copy)]
pub struct Cursor<'a> {
    pub row: &'a [u32],
    pub at: usize,
}

impl<'a> Cursor<'a> {
    // At the start of the row.
    pub fn new(row: &'a [u32]) -> Cursor<'a>
        ensures { (result.row ≡ row.entry) × (result.at ≡ 0) }
    {
        Cursor { row, at: 0 }
    }

    // The word at the position; 0 past the end.
    pub fn next_word(self) -> u32
        ensures { result ≡ get_or self.entry.row.now self.entry.at 0 }
    {
        self.word().unwrap_or(0)
    }

    fn word(self) -> Option<u32>
        ensures { result ≡ slice_get self.entry.row.now self.entry.at }
    {
        self.row.get(self.at).copied()
    }

    pub fn at_end(self) -> bool
        ensures { result ≡ leb (length self.entry.row.now) self.entry.at }
    {
        self.row.len() <= self.at
    }

    // One word on; the end stays where it is.
    #[tactic(auto, unfolding(crate::specs::Read::next_at))]
    pub fn step(self) -> Cursor<'a>
        ensures { (result.row ≡ self.entry.row) × (result.at ≡ next_at self.entry.row.now self.entry.at) }
    {
        if self.at_end() {
            self
        } else {
            Cursor {
                at: self.at + 1,
                ..self
            }
        }
    }
}

// The first word of a row, 0 where it has none, and the second, where it has two.
#[derive(Clone, Copy)]
pub struct Opening {
    pub tag: u32,
    pub count: Option<u32>,
}

#[tactic(auto, unfolding(crate::specs::Read::opening_of, crate::specs::Read::next_at))]
pub fn read_opening(row: &[u32]) -> Opening
    ensures { result ≡ opening_of row.now }
{
    let first = Cursor::new(row);
    let second = first.step();
    Opening {
        tag: first.next_word(),
        count: second.word(),
    }
}

// The number of declarations of a row that is a quantified predicate; 0 for any other.
#[tactic(auto, unfolding(crate::specs::Read::opening_of, decls::specs::Internal::Noted::count_in))]
fn declared(row: &[u32]) -> u32
    ensures { result ≡ count_in row.now }
{
    let opening = read_opening(row);
    let Some(n) = opening.count else {
        return 0;
    };
    match opening.tag {
        Tag::FOR_ALL | Tag::EXISTS | Tag::NOTED_FOR_ALL | Tag::NOTED_EXISTS => n,
        _ => 0,
    }
}

// For how many declarations the set of places of a quantified predicate is made: the number of those that it declares, or the refusal.
pub fn count_declarations(row: &[u32]) -> Answer
    ensures { result ≡ told (declared_outcome row.now) }
{
    reader::check::check(row, Kind::Predicate)?;
    let n = declared(row);
    if n == 0 {
        return Err(Refusal::NotQuantified);
    }
    Ok(n as usize)
}
