// Offers in turn to one set of places.
use crate::print;
use crate::text::{part, size_at};
use places::replacements::{Refused, Replacements};
use std::io;

// The number of declarations; number, start and end of each filled place.
fn show(rt: &impl Print, places: Replacements) -> io::Result<()> {
    print::text(rt, b" |")?;
    print::count(rt, places.n)?;
    print::text(rt, b" |")?;
    for (i, end) in places.ends.iter().enumerate() {
        if *end != 0 {
            print::count(rt, i)?;
            print::count(rt, places.starts[i])?;
            print::count(rt, *end)?;
        }
    }
    Ok(())
}

// What is answered about a set: 0 and 0, or the refusal.
fn say(rt: &impl Print, made: Result<Replacements, Refused>) -> io::Result<()> {
    match made {
        Ok(_) => print::text(rt, b" 0 0"),
        Err(refused) => print::refused(rt, refused.refusal),
    }
}

// The set that was made, or the one that a refusal left.
fn set_of(made: Result<Replacements, Refused>) -> Replacements {
    match made {
        Ok(places) => places,
        Err(refused) => refused.places,
    }
}

// The rows offered to a set, each behind the number of its words: number and position of the set and of each offer, and the places at the end.
pub(crate) fn run(
    rt: &impl Print,
    rows: &[u32],
    made: Result<Replacements, Refused>,
) -> io::Result<()> {
    say(rt, made)?;
    let mut places = set_of(made);
    let mut at = 0;
    for _ in 0..rows.len() {
        if rows.len() <= at {
            break;
        }
        let start = at + 1;
        let end = start.wrapping_add(size_at(rows, at));
        let offered = offers::offer_once(places, part(rows, start, end));
        say(rt, offered)?;
        places = set_of(offered);
        at = end;
    }
    show(rt, places)
}
