// What every public function takes and answers.
ghost use Rattle.std.specs.Prelude.{◌≡◌};
ghost use Rattle.form.specs.Refusal.{number_of, position_of};

// Why a call refuses.
#[derive(Clone, Copy)]
pub enum Refusal {
    // A row has more than 8,192 words.
    TooLong,
    // A row is not one form or list of the kind: the position of the first word at which it cannot go on.
    Broken(u32),
    // The form is no quantified predicate.
    NotQuantified,
    // A list has a name twice, a name over 65,535, or over 32 names.
    BadNames,
    // There are more places than declarations, or over 32 declarations.
    TooManyPlaces,
    // A declaration would capture a dangling index.
    Captured,
    // The result would be outside the limits of a row.
    OutOfLimits,
    // A line is no command, or its brackets do not hold one node, pair or place each.
    NotACommand,
    // There is nothing to rewrite.
    NothingToRewrite,
    // What is offered is no equality with an index on one side.
    NoEquality,
    // The index of an offered equality is none of the declarations.
    NoDeclaration,
    // The replacement has a dangling index that is not above its target.
    NotAbove,
    // The place is filled already.
    AlreadyFilled,
    // The output row is shorter than the result.
    OutputTooShort,
    // The work row has under 16,384 words.
    WorkTooShort,
}

// The length of what is answered, or why nothing is.
pub type Answer = Result<usize, Refusal>;

impl Refusal {
    // The number by which a line, C and Rust know the refusal.
    pub fn number(self) -> u32
        ensures { result ≡ number_of self }
    {
        match self {
            Refusal::TooLong => 1,
            Refusal::Broken(_) => 2,
            Refusal::NotQuantified => 3,
            Refusal::BadNames => 4,
            Refusal::TooManyPlaces => 5,
            Refusal::Captured => 6,
            Refusal::OutOfLimits => 7,
            Refusal::NotACommand => 8,
            Refusal::NothingToRewrite => 9,
            Refusal::NoEquality => 10,
            Refusal::NoDeclaration => 11,
            Refusal::NotAbove => 12,
            Refusal::AlreadyFilled => 13,
            Refusal::OutputTooShort => 14,
            Refusal::WorkTooShort => 15,
        }
    }

    // Where the row breaks; 0 for a refusal that is about no word.
    pub fn position(self) -> u32
        ensures { result ≡ position_of self }
    {
        match self {
            Refusal::Broken(at) => at,
            _ => 0,
        }
    }
}

// Which kind of form is asked for. A named one is a form of either sort in which no index stands.
#[derive(Clone, Copy)]
pub enum Kind {
    Expression,
    Predicate,
    Either,
    Named,
}

// Which list of entries: name and expression in turn, or one place for each declaration.
#[derive(Clone, Copy)]
pub enum ListKind {
    Pairs,
    Places,
}

// The limits of a row: words, depth, a name or index, declarations of one quantifier.
#[derive(Clone, Copy)]
pub struct Limit {
    pub value: usize,
}

impl Limit {
    pub const WORDS: usize = 8192;

    pub const DEPTH: u32 = 64;

    pub const NAME: u32 = 65535;

    pub const DECLARATIONS: u32 = 32;

    pub const WORD: u32 = 4294967295;
}
