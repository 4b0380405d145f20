// What the program does with its input: lines of hexadecimal in, a line out for each. Public for the program.
ghost use Rattle.std.specs.Prelude.{◌≤◌};
ghost use Rattle.lines.specs.Sessions.{EndedIs, FedIs, FinishedIs, most_filled};

use super::collecting::collect_piece;
use super::ends::end_line;
use super::states::{Buffers, Fed, MOST_FILLED, State};

// The line that has begun in the buffers is at its end.
fn end_begun(buffers: &mut Buffers, state: State) -> State
    requires { state.filled ≤ most_filled }
    ensures { EndedIs buffers.old state buffers.new result }
{
    end_line(
        &mut buffers.out,
        &mut buffers.plan,
        &mut buffers.scratch,
        &buffers.line,
        state,
    )
}

// Takes a piece of the input up to the end of a line; nothing where there is no room for what a line gives.
pub fn feed(buffers: &mut Buffers, piece: &[u8], state: State) -> Fed
    ensures { FedIs piece.now buffers.old state buffers.new result }
{
    if MOST_FILLED < state.filled {
        return Fed { taken: 0, state };
    }
    let collected = collect_piece(&mut buffers.line, piece, state.count);
    let joined = State {
        count: collected.count,
        ..state
    };
    Fed {
        taken: collected.taken,
        state: if collected.ended {
            end_begun(buffers, joined)
        } else {
            joined
        },
    }
}

// The end of the input ends a line that has begun; nothing is done where there is no room for what it gives.
pub fn finish(buffers: &mut Buffers, state: State) -> State
    ensures { FinishedIs buffers.old state buffers.new result }
{
    if state.count == 0 || MOST_FILLED < state.filled {
        return state;
    }
    end_begun(buffers, state)
}
