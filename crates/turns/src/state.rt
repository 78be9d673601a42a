// What is kept from turn to turn, and how reading and writing change it.
ghost use Rattle.std.specs.Prelude.{◌≡◌, false, length};
ghost use Rattle.spell.specs.Put.{put};
ghost use Rattle.turns.specs.Turn.{written_state, movable, moved_state, moved_bytes, read_state};

// The bytes of the input from start to end are not passed yet, the first `used` bytes of the output not written yet; whether a line that is
// too long is being skipped, and whether the input has ended.
#[derive(Clone, Copy)]
pub struct State {
    pub start: usize,
    pub end: usize,
    pub used: usize,
    pub skipping: bool,
    pub ended: bool,
}

impl State {
    // Before the first turn: nothing is read and nothing is to be written.
    pub fn begin() -> State
        ensures { result ≡ record { start = 0; end = 0; used = 0; skipping = false; ended = false } }
    {
        State {
            start: 0,
            end: 0,
            used: 0,
            skipping: false,
            ended: false,
        }
    }

    // What was answered is written.
    pub fn after_write(self) -> State
        ensures { result ≡ written_state self }
    {
        State { used: 0, ..self }
    }

    fn is_movable(self, input: usize) -> bool
        ensures { result ≡ movable self input }
    {
        self.start <= self.end && self.end <= input
    }

    // The bytes that are not passed yet are moved to the front.
    pub fn move_down(self, input: &mut [u8]) -> State
        ensures value { result ≡ moved_state self (length input.old) }
        ensures input_after { input.new ≡ put input.old 0 (moved_bytes self input.old) }
    {
        if !self.is_movable(input.len()) {
            return self;
        }
        input.copy_within(self.start..self.end, 0);
        State {
            start: 0,
            end: self.end - self.start,
            ..self
        }
    }

    // So many bytes were read behind the others.
    pub fn after_read(self, input: usize, got: usize) -> State
        ensures { result ≡ read_state self input got }
    {
        let room = input.saturating_sub(self.end);
        if got == 0 || room < got {
            return State {
                ended: true,
                ..self
            };
        }
        State {
            end: self.end + got,
            ..self
        }
    }
}
