// What frames and extractions begin with: a first byte and a number of two bytes.
ghost use Rattle.std.specs.Prelude.{◌≤◌, length};
ghost use Rattle.byte_writer.specs.Written.{WroteAt};
ghost use Rattle.plan_writer.specs.Predicates.{head_of, frame_head};

use byte_writer::numbers::put_number;

// A first byte and a number of two bytes; answers where they end.
pub fn put_head(out: &mut [u8], first: u8, number: usize) -> usize
    requires { 3 ≤ length out.old }
    ensures { WroteAt 0 (head_of first number) out.old out.new result }
{
    out[0] = first;
    put_number(out, 1, 2, number)
}

// `01` and the column count; answers where they end.
pub fn put_frame_head(out: &mut [u8], count: usize) -> usize
    requires { 3 ≤ length out.old }
    ensures { WroteAt 0 (frame_head count) out.old out.new result }
{
    put_head(out, 1, count)
}
