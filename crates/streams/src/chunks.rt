// What a read gave, handed to `lines` piece by piece. Public for the program.
ghost use Rattle.std.specs.Prelude.{◌≡◌};
ghost use Rattle.streams.specs.Handing.{Handed, TakenIn};

use super::output::{Failure, Turn, make_room};
use lines::feeding::feed;
use lines::states::{Buffers, State};
use std::io;
use std::io::Stdout;

// Hands over characters, as many at a time as are taken. What they give waits, but for what is written where there is no room. That
// nothing waits before is a clause: the state goes on to be one of which bytes wait.
fn feed_all(
    stdout: Stdout,
    buffers: &mut Buffers,
    characters: &[u8],
    state: State,
) -> Result<State, Failure>
    requires { state.filled ≡ 0 }
    ensures { Handed characters.now buffers.old state buffers.new result }
{
    let mut current = state;
    let mut rest = characters;
    while !rest.is_empty() {
        let fed = feed(buffers, rest, current);
        current = make_room(stdout, &buffers.out, fed.state)?;
        rest = &rest[fed.taken..];
    }
    Ok(current)
}

// Handles what a read gave: as many characters of the chunk as it says, the end of the input, or that it failed.
pub fn take_in(
    stdout: Stdout,
    buffers: &mut Buffers,
    chunk: &[u8],
    got: io::Result<usize>,
    state: State,
) -> Result<Turn, Failure>
    requires { state.filled ≡ 0 }
    ensures { TakenIn got chunk.now buffers.old state buffers.new result }
{
    let Ok(size) = got else {
        return Err(Failure::NotRead);
    };
    if size == 0 {
        return Ok(Turn::Ended(state));
    }
    let size = size.min(chunk.len());
    let next = feed_all(stdout, buffers, &chunk[..size], state)?;
    Ok(Turn::More(next))
}
