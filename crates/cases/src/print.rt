// What a case prints: number, length or position, and the words of a row.
use form::answer::{Answer, Refusal};
use std::io;

pub(crate) fn text(rt: &impl Print, bytes: &[u8]) -> io::Result<()> {
    rt.write_all(bytes)
}

// A space and a number.
pub(crate) fn count(rt: &impl Print, n: usize) -> io::Result<()> {
    print!(rt; " {n}")
}

pub(crate) fn word(rt: &impl Print, w: u32) -> io::Result<()> {
    print!(rt; " {w}")
}

// Every word of the row behind a bar.
pub(crate) fn words(rt: &impl Print, row: &[u32]) -> io::Result<()> {
    text(rt, b" |")?;
    for w in row {
        word(rt, *w)?;
    }
    Ok(())
}

// The number of a refusal and its position, or 0 and the length.
pub(crate) fn answer(rt: &impl Print, a: Answer) -> io::Result<()> {
    match a {
        Ok(n) => {
            word(rt, 0)?;
            count(rt, n)
        }
        Err(refusal) => refused(rt, refusal),
    }
}

pub(crate) fn refused(rt: &impl Print, refusal: Refusal) -> io::Result<()> {
    word(rt, refusal.number())?;
    word(rt, refusal.position())
}
