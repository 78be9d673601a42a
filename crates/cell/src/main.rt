// The cell program: reads commands from standard input, one a line, and prints one answer a line. What it does with the bytes is decided by
// the functions of `turns`.
#![tactic(auto)]

mod explain;

use explain::{answer_arguments, has_arguments};
use std::io::{self, ErrorKind, Input, Read};
use turns::state::State;
use turns::turn::Turn;

// The program's buffers: what was read, the rows of a command, and what is not written yet.
#[derive(Drop)]
struct Rows {
    input: [u8; 131072],
    list: [u32; 8192],
    form: [u32; 8192],
    work: [u32; 16384],
    result: [u32; 8192],
    output: [u8; 262144],
}

fn write(rt: &impl Print, output: &[u8], st: State) -> io::Result<State> {
    if let Some(bytes) = output.get(..st.used) {
        rt.write_all(bytes)?;
    }
    Ok(st.after_write())
}

// A read that a signal interrupts changes nothing else, and the next turn reads again.
fn read(reader: &mut impl Read, input: &mut [u8], st: State) -> io::Result<State> {
    let moved = st.move_down(input);
    let room = input.len();
    let Some(rest) = input.get_mut(moved.end..) else {
        return Ok(moved.after_read(0, 0));
    };
    match reader.read(rest) {
        Ok(got) => Ok(moved.after_read(room, got)),
        Err(e) if e.kind() == ErrorKind::Interrupted => Ok(moved),
        Err(e) => Err(e),
    }
}

// The state after the turn, or nothing where the program stops.
fn step(
    rt: &impl Print,
    reader: &mut impl Read,
    rows: &mut Rows,
    st: State,
    turn: Turn,
) -> io::Result<Option<State>> {
    match turn {
        Turn::On(next) => Ok(Some(next)),
        Turn::Write => Ok(Some(write(rt, &rows.output, st)?)),
        Turn::Read => Ok(Some(read(reader, &mut rows.input, st)?)),
        Turn::Stop => Ok(None),
    }
}

// Nothing says that an input ends, so the turns are counted up to a number that no run reaches.
fn run(rt: &impl Print, reader: &mut impl Read, rows: &mut Rows) -> io::Result<()> {
    let mut st = State::begin();
    for _ in 0..u64::MAX {
        let turn = turns::turn::take_turn(
            &rows.input,
            &mut rows.list,
            &mut rows.form,
            &mut rows.work,
            &mut rows.result,
            &mut rows.output,
            st,
        );
        let Some(next) = step(rt, reader, rows, st, turn)? else {
            return Ok(());
        };
        st = next;
    }
    Ok(())
}

fn answer_lines(rt: &(impl Input + Print)) -> io::Result<()> {
    let mut rows = Rows {
        input: [0; 131072],
        list: [0; 8192],
        form: [0; 8192],
        work: [0; 16384],
        result: [0; 8192],
        output: [0; 262144],
    };
    run(rt, &mut rt.reader(), &mut rows)
}

fn main(rt: HostRuntime) -> io::Result<()> {
    if has_arguments(&rt) {
        return answer_arguments(&rt);
    }
    answer_lines(&rt)
}
