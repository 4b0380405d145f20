// Reads lines of hexadecimal from standard input and writes a line for each to standard output. Where reading or writing fails it
// ends, with a line on standard error.
//
// `lines` says what is written for a piece of the input, and `runs-write` that this is the program's output, wherever the input is cut
// and whenever what waits is written out. `streams` hands every character of what a read gave over once and in order and says which
// bytes wait then, and here it is proved that nothing of the state is lost between two reads. What no contract can say, and is left to
// be read: that `read_on` hands over what its read gave, that `streams::output::flush` writes what waits in the buffer that it is lent,
// that `run` goes on until a read gives nothing or something fails, that `run_to_end` then ends the last line, and that `report` says
// what failed.
#![tactic(auto)]

ghost use Rattle.std.specs.Prelude.{◌≡◌, replicate};
ghost use Rattle.definitions.specs.Words.Limits.{most_bytes};
ghost use Rattle.spatialjoin.specs.Runs.{ReadOn, Ran, LastIs};

use lines::feeding::finish;
use lines::states::{Buffers, State, fresh};
use std::io::{Read, Stderr, Stdin, Stdout};
use streams::chunks::take_in;
use streams::output::{Failure, Turn, flush};

// Reads once, handles what came, and writes what waits then.
fn read_on(
    mut stdin: Stdin,
    stdout: Stdout,
    buffers: &mut Buffers,
    chunk: &mut [u8; 65536],
    state: State,
) -> Result<Turn, Failure>
    requires { state.filled ≡ 0 }
    ensures { ReadOn chunk.new buffers.old state buffers.new result }
{
    let got = stdin.read(chunk);
    match take_in(stdout, buffers, chunk, got, state)? {
        Turn::More(next) => {
            let next = flush(stdout, &buffers.out, next)?;
            Ok(Turn::More(next))
        }
        Turn::Ended(last) => Ok(Turn::Ended(last)),
    }
}

// Reads up to the end of the input, or until reading or writing fails. A proved loop has to end, and nothing says that the input
// does: so its turns are counted, up to a number that no run comes to.
fn run(
    stdin: Stdin,
    stdout: Stdout,
    buffers: &mut Buffers,
    chunk: &mut [u8; 65536],
) -> Result<Turn, Failure>
    requires { buffers.old.plan ≡ replicate most_bytes 0 }
    ensures { Ran buffers.new result }
{
    let mut state = fresh();
    for _ in 0..u64::MAX {
        match read_on(stdin, stdout, buffers, chunk, state)? {
            Turn::More(next) => state = next,
            Turn::Ended(last) => return Ok(Turn::Ended(last)),
        }
    }
    Ok(Turn::More(state))
}

// Ends a last line without a line feed, and writes what waits then.
fn write_last(stdout: Stdout, buffers: &mut Buffers, state: State) -> Result<State, Failure>
    requires { state.filled ≡ 0 }
    ensures { LastIs buffers.old state buffers.new result }
{
    let last = finish(buffers, state);
    flush(stdout, &buffers.out, last)
}

// The whole run, and its last line.
fn run_to_end(
    stdin: Stdin,
    stdout: Stdout,
    buffers: &mut Buffers,
    chunk: &mut [u8; 65536],
) -> Result<(), Failure>
    requires { buffers.old.plan ≡ replicate most_bytes 0 }
{
    if let Turn::Ended(last) = run(stdin, stdout, buffers, chunk)? {
        write_last(stdout, buffers, last)?;
    }
    Ok(())
}

// Says what failed.
fn report(stderr: Stderr, failure: Failure) {
    let _ = match failure {
        Failure::NotRead => { stderr.write_all(b"spatialjoin: standard input could not be read\n") }
        Failure::NotWritten => {
            stderr.write_all(b"spatialjoin: standard output could not be written\n")
        }
    };
}

fn main(rt: HostRuntime) {
    let mut buffers = Buffers {
        out: [0; 65536],
        plan: [0; 16384],
        scratch: [0; 16384],
        line: [0; 32768],
    };
    let mut chunk = [0u8; 65536];
    if let Err(failure) = run_to_end(rt.stdin(), rt.stdout(), &mut buffers, &mut chunk) {
        report(rt.stderr(), failure);
    }
}
