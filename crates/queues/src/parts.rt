// The bytes of one queue: count, lengths, places.
ghost use Rattle.std.specs.Prelude.{◌≡◌, ◌+◌, ◌≤◌, length, take, drop};
ghost use Rattle.definitions.specs.Calls.QueueBytes.{start};
ghost use Rattle.byte_writer.specs.Written.{WroteAt};
ghost use Rattle.queues.specs.Outcomes.{queue_is};
ghost use Rattle.queues.specs.Parts.{HasRoom, FrameAdded, HasNext, FrameMoved, HasFirst, FirstTaken};

use crate::answers::Queue;
use byte_writer::copies::copy_over;
use byte_writer::numbers::put_number;
use expression::fields::short_at;

// How many frames a queue holds at most, and how many bytes a frame has at most.
pub(crate) const MOST: usize = 16;

pub(crate) const LONGEST: usize = 1024;

// Where its lengths and places begin, behind its count, and how many bytes it has.
pub(crate) const LENGTHS: usize = 1;

pub(crate) const PLACES: usize = LENGTHS + 2 * MOST;

pub(crate) const PART: usize = PLACES + LONGEST * MOST;

const SECOND_LENGTH: usize = LENGTHS + 2;

// Where the queues begin, behind the mark, and how many bytes both have with it.
pub(crate) const FIRST: usize = 1;

pub(crate) const SECOND: usize = FIRST + PART;

pub(crate) const WHOLE: usize = SECOND + PART;

// Where the bytes of a queue begin.
pub(crate) fn queue_start(queue: Queue) -> usize
    ensures { result ≡ start (queue_is queue) }
{
    match queue {
        Queue::Chassis => FIRST,
        Queue::FixedUnit => SECOND,
    }
}

// Adds a frame behind `count` others.
pub(crate) fn add_frame(part: &mut [u8], count: usize, frame: &[u8])
    requires { HasRoom part.old count frame.now }
    ensures { FrameAdded part.old count frame.now part.new }
{
    let n = frame.len();
    put_number(part, LENGTHS + 2 * count, 2, n);
    let place = PLACES + LONGEST * count;
    copy_over(&mut part[place..place + n], frame);
    part[0] = (count + 1) as u8;
}

// Moves n bytes down to `to`.
fn move_bytes(s: &mut [u8], to: usize, from: usize, n: usize)
    requires to_le_from { to ≤ from }
    requires n_in_bounds { from + n ≤ length s.old }
    ensures { WroteAt to (take n (drop from s.old)) s.old s.new (to + n) }
{
    for i in 0..n {
        s[to + i] = s[from + i];
    }
}

// Moves the frame of place k + 1 to place k.
fn move_frame(part: &mut [u8], k: usize)
    requires { HasNext part.old k }
    ensures { FrameMoved part.old k part.new }
{
    let n = short_at(part, SECOND_LENGTH + 2 * k);
    put_number(part, LENGTHS + 2 * k, 2, n);
    let to = PLACES + LONGEST * k;
    move_bytes(part, to, to + LONGEST, n);
}

// Takes the oldest frame out: moves the later ones down by one place.
pub(crate) fn take_first(part: &mut [u8])
    requires { HasFirst part.old }
    ensures { FirstTaken part.old part.new }
{
    let last = usize::from(part[0]) - 1;
    for k in 0..last {
        move_frame(part, k);
    }
    part[0] = last as u8;
}
