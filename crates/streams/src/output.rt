// What the program writes, and what follows a read. Public for the program.
ghost use Rattle.std.specs.Prelude.{◌≤◌, length};
ghost use Rattle.streams.specs.Turns.{Flushed, RoomMade};

use lines::states::{MOST_FILLED, State};
use std::io::Stdout;

// What follows a read: another one, or the end of the input. `ControlFlow` would say that one of them breaks, and neither does: what is
// left of the last line is still to be answered.
#[derive(Clone, Copy)]
pub enum Turn {
    More(State),
    Ended(State),
}

// Why there is no next turn: a read failed, or a write did.
#[derive(Clone, Copy, Debug, PartialEq, Eq)]
pub enum Failure {
    NotRead,
    NotWritten,
}

// Writes what waits.
pub fn flush(stdout: Stdout, out: &[u8], state: State) -> Result<State, Failure>
    requires { state.filled ≤ length out.now }
    ensures { Flushed state result }
{
    if stdout.write_all(&out[..state.filled]).is_ok() {
        Ok(State { filled: 0, ..state })
    } else {
        Err(Failure::NotWritten)
    }
}

// Writes what waits where there is no room for what another line gives.
pub fn make_room(stdout: Stdout, out: &[u8], state: State) -> Result<State, Failure>
    requires { state.filled ≤ length out.now }
    ensures { RoomMade state result }
{
    if MOST_FILLED < state.filled {
        flush(stdout, out, state)
    } else {
        Ok(state)
    }
}
