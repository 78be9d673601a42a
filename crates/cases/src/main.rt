// The library cases: calls with rows of given lengths and old contents, one case a line on standard input, one line printed a case.
//
// A case is: name; and then in words the call, the length of the output row, the length of the work row, the parameter, its sign, the
// number of words of the list, the list, the row. A space ends each word, which may stand behind how often it is repeated and a star. The
// call is a command's number, or 101 dangling, 102 lift, 103 a new set of places, 104 a set for any number of declarations,
// 105 the check of a list of places, which is the row.
// The rows that are offered to a set stand in the row, each behind the number of its words. The sign is 1, 2 or 3 for the offsets -1, -2
// and -2147483648. The output row holds 88 everywhere before the call and the work row 77. What is printed: the name, 0 or the number of a refusal,
// the length of an answer or the position of a refusal, and every word of the output row. For lift it is the part that it answers; for a set
// of places its number and position, those of the offers, the number of declarations, and place, start and end of each filled place.
#![tactic(auto)]

mod place_sets;
mod print;
mod text;

use crate::text::{find, part, read_words, size_at, word_at};
use form::answer::Answer;
use places::replacements::Replacements;
use std::io::{self, Input, Read};

fn offset(param: u32, sign: u32) -> i32 {
    match sign {
        1 => -1,
        2 => -2,
        3 => -2147483648,
        _ => i32::try_from(param).unwrap_or(i32::MAX),
    }
}

// The number and length of a call, and its output row.
fn answer_of(
    call: u32,
    by: i32,
    list: &[u32],
    row: &[u32],
    work: &mut [u32],
    out: &mut [u32],
) -> Answer {
    match call {
        101 => subst::dangling::dangling_bound_indices(row, out),
        _ => calls::run_number(call, by, list, row, work, out),
    }
}

// A call with rows of its own, of the asked lengths.
fn run_fresh(
    rt: &impl Print,
    call: u32,
    by: i32,
    list: &[u32],
    row: &[u32],
    w: usize,
    o: usize,
) -> io::Result<()> {
    let mut words = [77u32; 16400];
    let mut results = [88u32; 8200];
    let Some(work) = words.get_mut(..w) else {
        return Ok(());
    };
    let Some(out) = results.get_mut(..o) else {
        return Ok(());
    };
    print::answer(rt, answer_of(call, by, list, row, work, out))?;
    print::words(rt, out)
}

fn lift_fresh(rt: &impl Print, base: &[u32], w: usize, depth: u32) -> io::Result<()> {
    let mut words = [77u32; 16400];
    let Some(work) = words.get_mut(..w) else {
        return Ok(());
    };
    let part = subst::lift::at_depth(base, work, depth);
    print::count(rt, part.len())?;
    print::words(rt, part)
}

// The case that these words say.
fn run_words(rt: &impl Print, words: &[u32]) -> io::Result<()> {
    let call = word_at(words, 0);
    let w = size_at(words, 2);
    let param = word_at(words, 3);
    let n = size_at(words, 5);
    let row = part(words, 6 + n, words.len());
    match call {
        102 => lift_fresh(rt, row, w, param),
        103 => place_sets::run(rt, row, Replacements::new(param as usize)),
        104 => place_sets::run(rt, row, Ok(Replacements::free(param as usize))),
        105 => print::answer(rt, reader::lists::check_places(row, param)),
        _ => run_fresh(
            rt,
            call,
            offset(param, word_at(words, 4)),
            part(words, 6, 6 + n),
            row,
            w,
            size_at(words, 1),
        ),
    }
}

fn run_case(rt: &impl Print, name: &[u8], text: &[u8]) -> io::Result<()> {
    let mut words = [0u32; 16400];
    let n = read_words(text, &mut words);
    print::text(rt, name)?;
    print::text(rt, b":")?;
    run_words(rt, part(&words, 0, n))?;
    print::text(rt, b"\n")
}

// The case that starts here: where the next one does.
fn step(rt: &impl Print, input: &[u8], at: usize) -> io::Result<usize> {
    let middle = find(input, at, b';');
    let end = find(input, middle, b'\n');
    run_case(rt, part(input, at, middle), part(input, middle, end))?;
    if input.len() <= end {
        return Ok(input.len());
    }
    Ok(end + 1)
}

fn run(rt: &impl Print, input: &[u8]) -> io::Result<()> {
    let mut at = 0;
    for _ in 0..input.len() {
        if input.len() <= at {
            break;
        }
        at = step(rt, input, at)?;
    }
    Ok(())
}

// At most so many bytes are read. An input with as many may go on behind them, and is too long.
const ROOM: usize = 65536;

fn read_and_run(rt: &(impl Input + Print + Alloc)) -> io::Result<()> {
    let mut input = Vec::new(rt.alloc());
    rt.reader().take(ROOM as u64).read_to_end(&mut input)?;
    if ROOM <= input.len() {
        return print::text(rt, b"too long\n");
    }
    run(rt, &input)
}

fn main(rt: HostRuntime) -> io::Result<()> {
    read_and_run(&rt)
}
