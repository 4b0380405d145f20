// What the program keeps between two pieces of its input.
ghost use Rattle.std.specs.Prelude.{◌≡◌, replicate};
ghost use Rattle.definitions.specs.Words.Limits.{most_bytes};
ghost use Rattle.lines.specs.Pieces.{fresh_session};
ghost use Rattle.lines.specs.Sessions.{Stands};
ghost use Rattle.lines.specs.declared.states.Buffers.{Buffers};

// The most bytes that may wait to be written where a line is answered.
pub const MOST_FILLED: usize = 32757;

// What is to be written, the plan, the scratch, and the line that has begun. They stay where they are while a `State`, which says how much
// of each is in use, goes by value from read to read.
#[derive(Drop)]
pub struct Buffers {
    pub out: [u8; 65536],
    pub plan: [u8; 16384],
    pub scratch: [u8; 16384],
    pub line: [u8; 32768],
}

// The plan's length, how many characters the line has, and how many bytes are to be written.
#[derive(Clone, Copy)]
pub struct State {
    pub n: usize,
    pub count: usize,
    pub filled: usize,
}

// How much of a piece was taken, and the state afterwards.
#[derive(Clone, Copy)]
pub struct Fed {
    pub taken: usize,
    pub state: State,
}

// The state at the start, over a plan buffer of zeros.
pub fn fresh() -> State
    ensures filled_value { result.filled ≡ 0 }
    ensures by_index { (b : Buffers) → b.plan ≡ replicate most_bytes 0 → Stands b result fresh_session }
{
    State {
        n: 0,
        count: 0,
        filled: 0,
    }
}
