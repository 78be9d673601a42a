// One turn: the next line is answered, or the program is to write, to read or to stop.
ghost use Rattle.std.specs.Prelude.{◌≡◌, [], ◌+◌, ◌≤◌, ◌<◌, length};
ghost use Rattle.spell.specs.Put.{put};
ghost use Rattle.reply.specs.declared.split.Next.TheVariants.{More};
ghost use Rattle.turns.specs.Turn.{pending_of, none, of_next, piece_of, passed, waiting, of_piece, fits, rows_fit, turn_of, printed_by};
ghost use Rattle.turns.specs.Internal.Step.{with_used, Decided, OfPiece, allowed, Ending};

use crate::state::State;
use form::answer::Answer;
use reply::split::Next;

// On with another state; or the bytes of the output are to be written, more of the input to be read, or all is done.
#[derive(Clone, Copy)]
pub enum Turn {
    On(State),
    Write,
    Read,
    Stop,
}

// What is done in a turn: the bytes up to a place are a line, which is answered, and the state is this one then, but for what is not
// written yet; or nothing is answered.
#[derive(Clone, Copy)]
enum Step {
    Reply(usize, State),
    Plain(Turn),
}

// The next n bytes are passed.
fn after(st: State, n: usize, skipping: bool) -> State
    requires { st.start + n ≤ st.end }
    ensures { result ≡ passed st [] n skipping }
{
    State {
        start: st.start + n,
        skipping,
        ..st
    }
}

// What was answered is written first.
fn wait(st: State, turn: Turn) -> Turn
    ensures { result ≡ waiting st turn }
{
    if st.used == 0 {
        return turn;
    }
    Turn::Write
}

// There is nothing to answer yet.
fn idle(st: State) -> Step
    ensures { result ≡ Step.Plain (of_piece st none) }
{
    if st.ended {
        return Step::Plain(wait(st, Turn::Stop));
    }
    Step::Plain(wait(st, Turn::Read))
}

// The bytes have no newline.
fn unfinished(input: &[u8], st: State) -> Step
    requires { (st.start ≤ st.end) × (st.end ≤ length input.now) }
    ensures { OfPiece st input.now (of_next st.skipping st.ended (pending_of st input.now) More) result }
{
    let end = st.end;
    let n = end - st.start;
    if n == 0 {
        return idle(st);
    }
    if st.skipping {
        return Step::Plain(Turn::On(after(st, n, true)));
    }
    if st.ended {
        return Step::Reply(end, after(st, n, false));
    }
    idle(st)
}

fn next_step(input: &[u8], st: State) -> Step
    requires { (st.start ≤ st.end) × (st.end ≤ length input.now) }
    ensures { OfPiece st input.now (piece_of st input.now) result }
{
    let start = st.start;
    let end = st.end;
    let next = reply::split::next_line(&input[start..end], st.skipping);
    match next {
        Next::Line(n) => Step::Reply(start + n, after(st, n + 1, false)),
        Next::Skipped(n) => Step::Plain(Turn::On(after(st, n + 1, false))),
        Next::Long => Step::Reply(end, after(st, end - start, true)),
        Next::More => unfinished(input, st),
    }
}

fn are_rows(list: usize, form: usize, work: usize, res: usize) -> bool
    ensures { result ≡ rows_fit list form work res }
{
    list == 8192 && form == 8192 && work == 16384 && res == 8192
}

fn is_fit(st: State, input: usize, output: usize) -> bool
    ensures { result ≡ fits st input output }
{
    st.start <= st.end && st.end <= input && st.used <= output
}

// What is done in the next turn, by the lengths of the rows.
fn decide(
    input: &[u8],
    list: usize,
    form: usize,
    work: usize,
    res: usize,
    output: usize,
    st: State,
) -> Step
    ensures decided { Decided st input.now (turn_of (rows_fit list form work res) st input.now output) (printed_by (rows_fit list form work res) st input.now output) result }
    ensures allowed { allowed (rows_fit list form work res) st (length input.now) output result }
{
    if !are_rows(list, form, work, res) {
        return Step::Plain(Turn::Stop);
    }
    if !is_fit(st, input.len(), output) {
        return Step::Plain(Turn::Stop);
    }
    if output - st.used < 131073 {
        return Step::Plain(wait(st, Turn::Stop));
    }
    next_step(input, st)
}

// Where the bytes of an answer end that stand from `used` on, and not behind `room`.
fn end_of(answer: Answer, used: usize, room: usize) -> usize
    requires { used ≤ room }
    ensures { Ending answer used room result }
{
    let Ok(n) = answer else {
        return used;
    };
    if room - used < n {
        return used;
    }
    used + n
}

// One byte more behind them is not written yet.
fn replied(st: State, end: usize) -> Turn
    requires { end < 18446744073709551615 }
    ensures { result ≡ Turn.On (with_used st (end + 1)) }
{
    Turn::On(State {
        used: end + 1,
        ..st
    })
}

// The next turn, with the program's rows: for the list, the form and the result of 8,192 words, a work row of 16,384 words. The program
// stops where its rows have other lengths, or the state does not fit the input and the output.
pub fn take_turn(
    input: &[u8],
    list: &mut [u32],
    form: &mut [u32],
    work: &mut [u32],
    res: &mut [u32],
    output: &mut [u8],
    st: State,
) -> Turn
    ensures value { result ≡ turn_of (rows_fit (length list.old) (length form.old) (length work.old) (length res.old)) st input.now (length output.old) }
    ensures output_after { output.new ≡ put output.old st.used (printed_by (rows_fit (length list.old) (length form.old) (length work.old) (length res.old)) st input.now (length output.old)) }
{
    let step = decide(
        input,
        list.len(),
        form.len(),
        work.len(),
        res.len(),
        output.len(),
        st,
    );
    match step {
        Step::Reply(end, next) => {
            let start = st.start;
            let used = st.used;
            let room = used + 131072;
            let answer = reply::reply::reply(
                &input[start..end],
                list,
                form,
                work,
                res,
                &mut output[used..room],
            );
            let at = end_of(answer, used, room);
            output[at] = b'\n';
            replied(next, at)
        }
        Step::Plain(turn) => turn,
    }
}
