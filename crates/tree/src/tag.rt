// The tags of nodes, and what follows each: the code's side of the table of tags.
ghost use Rattle.std.specs.Prelude.{◌≡◌};
ghost use Rattle.tree.specs.Tag.{expr, pred, shape_of};

// What follows a tag: its own words, then its children.
#[derive(Clone, Copy)]
pub enum Shape {
    Unknown,
    // So many predicates, then so many expressions.
    Plain(u32, u32),
    // A name or an index.
    Name,
    // A literal.
    Value,
    // A count of at least so many, and that many expressions.
    Exprs(u32),
    // A count of at least so many, and that many predicates.
    Preds(u32),
    // A name, a count, and that many expressions.
    Apply,
    // The form of a comprehension, its declarations, a predicate and an expression.
    Compr,
    // Declarations and a predicate.
    Quant,
    // The same two, with annotations on declarations.
    NotedCompr,
    NotedQuant,
}

// The tags that have a name of their own, and the ends of their ranges.
#[derive(Clone, Copy)]
pub struct Tag {
    pub number: u32,
}

impl Tag {
    pub const FREE_IDENT: u32 = 1;

    pub const BOUND_IDENT: u32 = 2;

    pub const LITERAL: u32 = 3;

    pub const SET_EXTENSION: u32 = 4;

    pub const BOOL: u32 = 5;

    pub const ASCRIPTION: u32 = 6;

    pub const PREDICATE_VARIABLE: u32 = 7;

    pub const NOT: u32 = 8;

    pub const SIMPLE: u32 = 9;

    pub const MULTIPLE: u32 = 10;

    pub const APPLICATION: u32 = 11;

    pub const EQUAL: u32 = 101;

    pub const IN: u32 = 107;

    pub const LAST_RELATIONAL: u32 = 112;

    pub const MAPSTO: u32 = 201;

    pub const LAST_BINARY_EXPRESSION: u32 = 227;

    pub const IMPLIES: u32 = 251;

    pub const EQUIVALENT: u32 = 252;

    pub const FIRST_ASSOCIATIVE_EXPRESSION: u32 = 301;

    pub const LAST_ASSOCIATIVE_EXPRESSION: u32 = 307;

    pub const AND: u32 = 351;

    pub const OR: u32 = 352;

    pub const FIRST_ATOMIC: u32 = 401;

    pub const LAST_ATOMIC: u32 = 412;

    pub const TRUE: u32 = 610;

    pub const FALSE: u32 = 611;

    pub const FIRST_UNARY: u32 = 751;

    pub const LAST_UNARY: u32 = 757;

    pub const FIRST_LATER_UNARY: u32 = 761;

    pub const LAST_LATER_UNARY: u32 = 764;

    pub const FIRST_COMPREHENSION: u32 = 801;

    pub const COMPREHENSION_SET: u32 = 803;

    pub const FOR_ALL: u32 = 851;

    pub const EXISTS: u32 = 852;

    pub const NOTED_FOR_ALL: u32 = 861;

    pub const NOTED_EXISTS: u32 = 862;

    pub const FIRST_NOTED_COMPREHENSION: u32 = 871;

    pub const NOTED_COMPREHENSION_SET: u32 = 873;
}

pub fn expr_shape(tag: u32) -> Shape
    ensures { result ≡ shape_of expr tag }
{
    match tag {
        Tag::FREE_IDENT..=Tag::BOUND_IDENT => Shape::Name,
        Tag::LITERAL => Shape::Value,
        Tag::SET_EXTENSION => Shape::Exprs(0),
        Tag::BOOL => Shape::Plain(1, 0),
        Tag::ASCRIPTION => Shape::Plain(0, 2),
        Tag::MAPSTO..=Tag::LAST_BINARY_EXPRESSION => Shape::Plain(0, 2),
        Tag::FIRST_ASSOCIATIVE_EXPRESSION..=Tag::LAST_ASSOCIATIVE_EXPRESSION => Shape::Exprs(2),
        Tag::FIRST_ATOMIC..=Tag::LAST_ATOMIC => Shape::Plain(0, 0),
        Tag::FIRST_UNARY..=Tag::LAST_UNARY => Shape::Plain(0, 1),
        Tag::FIRST_LATER_UNARY..=Tag::LAST_LATER_UNARY => Shape::Plain(0, 1),
        Tag::FIRST_COMPREHENSION..=Tag::COMPREHENSION_SET => Shape::Compr,
        Tag::FIRST_NOTED_COMPREHENSION..=Tag::NOTED_COMPREHENSION_SET => Shape::NotedCompr,
        _ => Shape::Unknown,
    }
}

pub fn pred_shape(tag: u32) -> Shape
    ensures { result ≡ shape_of pred tag }
{
    match tag {
        Tag::PREDICATE_VARIABLE => Shape::Name,
        Tag::NOT => Shape::Plain(1, 0),
        Tag::SIMPLE => Shape::Plain(0, 1),
        Tag::MULTIPLE => Shape::Exprs(1),
        Tag::APPLICATION => Shape::Apply,
        Tag::EQUAL..=Tag::LAST_RELATIONAL => Shape::Plain(0, 2),
        Tag::IMPLIES..=Tag::EQUIVALENT => Shape::Plain(2, 0),
        Tag::AND..=Tag::OR => Shape::Preds(2),
        Tag::TRUE..=Tag::FALSE => Shape::Plain(0, 0),
        Tag::FOR_ALL..=Tag::EXISTS => Shape::Quant,
        Tag::NOTED_FOR_ALL..=Tag::NOTED_EXISTS => Shape::NotedQuant,
        _ => Shape::Unknown,
    }
}
