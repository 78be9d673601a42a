// `cell --explain K`: what refusal K means, and what to look at.
ghost use Rattle.std.specs.Prelude.{◌≤◌, IfSome};

use std::env::FillError;
use std::io;
use std::rt::Env;

// The value of a digit.
fn digit(b: u8) -> Option<u32>
    ensures { IfSome result (λ d. d ≤ 9) }
{
    if b.is_ascii_digit() {
        return Some(u32::from(b - b'0'));
    }
    None
}

// The number that one or two digits say.
fn number(digits: &[u8]) -> Option<u32> {
    match digits {
        [one] => digit(*one),
        [ten, one] => Some(10 * digit(*ten)? + digit(*one)?),
        _ => None,
    }
}

// The text of the refusal with that number.
fn explanation(number: u32) -> Option<&'static [u8]> {
    match number {
        1 => Some(
            b"1: A row has more than 8,192 words.\nLook at the length of the form and of the list; neither may be longer.\n",
        ),
        2 => Some(
            b"2: A row is not exactly one form, or one list, of the kind that the command takes, within the limits of words, depth, names and declarations.\nIn [no 2 p] the words before p are right and word p cannot stand there: leave out the brackets, count the words of the form from 0, and look at word p; if there are only p words, words are missing at the end.\nIn [named FORM] every occurrence is a name: if word p is a 2 where an expression may begin, an index stands there.\nIf the form is not refused by 2 in [shift 0 FORM], or in [prune FORM] where the command takes a predicate, then count in the list; in a list of places, empty brackets are a word 0, and a word 1 stands before the words of any other.\n",
        ),
        3 => Some(
            b"3: Fill and prune take a quantified predicate, and this form is none.\nLook at its first word: it must be 851, 852, 861 or 862.\n",
        ),
        4 => Some(
            b"4: A list has a name twice, a name over 65,535, or over 32 names.\nLook at the names of the list.\n",
        ),
        5 => Some(
            b"5: A fill has more places than the form has declarations, or a set of places is for over 32 declarations.\nCount the places and the declarations; fewer places are no fault, since those that are missing at the end count as kept.\n",
        ),
        6 => Some(
            b"6: The shift would bring a dangling index below its depth, and a declaration would capture it.\nLook at the lowest dangling index: the offset may take it to 0 and no lower.\n",
        ),
        7 => Some(
            b"7: The result would be outside the limits of a row: 8,192 words, depth 64, names and indices up to 65,535, 32 declarations in one quantifier.\nForm and list are right; together they give too much.\n",
        ),
        8 => Some(
            b"8: The line is not a command, or brackets do not hold exactly one node, pair or place.\nLook for an unknown head, a missing bracket or argument, two spaces, a leading zero, or a number that does not fit 32 bits.\n",
        ),
        9 => Some(
            b"9: There is nothing to rewrite: every declaration is used, no equality can be taken, or the form is no element of a comprehension.\nThe form may be kept as it is.\n",
        ),
        10 => Some(
            b"10: An offer to a set of places is not an equality, 101, with an index on one side.\nOnly calls of the library answer so.\n",
        ),
        11 => Some(
            b"11: The index that an offered equality fixes is not one of the declarations of the set.\nOnly calls of the library answer so.\n",
        ),
        12 => Some(
            b"12: The replacement that an offered equality gives has a dangling index that is not above its target.\nOnly calls of the library answer so.\n",
        ),
        13 => Some(
            b"13: The place that an offered equality would fill is filled.\nOnly calls of the library answer so.\n",
        ),
        14 => Some(
            b"14: The output row is shorter than the result.\nOnly calls of the library answer so; an output row of 8,192 words is never too short.\n",
        ),
        15 => Some(
            b"15: The work row has under 16,384 words.\nOnly calls of the library answer so.\n",
        ),
        _ => None,
    }
}

// Whether the program was given an argument, of any length.
pub(crate) fn has_arguments(rt: &impl Env) -> bool {
    !matches!(rt.arg(1, &mut []), Err(FillError::NotPresent))
}

// The answer to the program's arguments: the text of a refusal, or how the program is used. No command is read then.
pub(crate) fn answer_arguments(rt: &(impl Env + Print + Eprint)) -> io::Result<()> {
    let mut word = [0u8; 16];
    let n = rt.arg(1, &mut word).unwrap_or(0);
    let mut digits = [0u8; 2];
    let m = rt.arg(2, &mut digits).unwrap_or(0);
    if &word[..n] == b"--explain".as_slice() {
        if let Some(text) = number(&digits[..m]).and_then(explanation) {
            return rt.write_all(text);
        }
    }
    eprintln!(rt;
        "cell reads commands from standard input; cell --explain K tells what refusal K, from 1 to 15, means"
    )
}
