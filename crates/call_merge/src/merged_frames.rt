// The merged frame: both tables of records one after the other, then the And of the held filter and the new one.
ghost use Rattle.std.specs.Prelude.{◌+◌, ◌≤◌, length};
ghost use Rattle.definitions.specs.Words.Limits.{most_records};
ghost use Rattle.frame_reader.specs.Frames.{FrameAt};
ghost use Rattle.byte_writer.specs.Writing.{Room, Puts, PutsAt};
ghost use Rattle.call_merge.specs.Merging.{FramesAt, merged_frame, merged_tables, merged_expr, raised_expr};

use super::given::{PlacedFrame, TwoFrames};
use byte_writer::copies::copy_at;
use plan_writer::arguments::reproject_column_references;
use plan_writer::column_tables::raised_indexes;
use plan_writer::frame_heads::put_frame_head;

// The head with the sum of both counts, then the held records and the new ones as they are; answers where they end.
fn put_tables(out: &mut [u8], two: TwoFrames) -> usize
    requires { Room (FramesAt two.old.bytes.now two.old.parts two.new.bytes.now two.new.parts) merged_tables 0 out.old }
    ensures { Puts (FramesAt two.entry.old.bytes.now two.entry.old.parts two.entry.new.bytes.now two.entry.new.parts) merged_tables
        out.old out.new result }
{
    let old = two.old.parts;
    let new = two.new.parts;
    let count = old.columns + new.columns;
    let w = put_frame_head(out, count);
    let v = copy_at(out, w, two.old.bytes, old.records, old.root);
    copy_at(out, v, two.new.bytes, new.records, new.root)
}

// The frame's expression from w on, its columns renumbered by a count; answers where it ends.
fn put_raised(out: &mut [u8], w: usize, given: PlacedFrame, by: usize) -> usize
    requires room { Room (FrameAt given.bytes.now given.parts (length given.bytes.now)) (raised_expr by) w out.old }
    requires columns_bound { by + given.parts.columns ≤ most_records }
    ensures { PutsAt (FrameAt given.entry.bytes.now given.entry.parts (length given.entry.bytes.now)) (raised_expr by) w out.old
        out.new result }
{
    let mut to = [0u16; 256];
    let count = given.parts.columns;
    raised_indexes(&mut to, by, count);
    let bytes = given.bytes;
    reproject_column_references(out, w, bytes, given.parts.root, bytes.len(), &to)
}

// And, the held filter as it is, the new one with its columns after the held ones; answers their length.
fn put_merged_expression(out: &mut [u8], two: TwoFrames) -> usize
    requires { Room (FramesAt two.old.bytes.now two.old.parts two.new.bytes.now two.new.parts) merged_expr 0 out.old }
    ensures { Puts (FramesAt two.entry.old.bytes.now two.entry.old.parts two.entry.new.bytes.now two.entry.new.parts) merged_expr
        out.old out.new result }
{
    let old = two.old.bytes;
    let by = two.old.parts.columns;
    out[0] = 2;
    out[1] = 0;
    let v = copy_at(out, 2, old, two.old.parts.root, old.len());
    put_raised(out, v, two.new, by)
}

// The merge of two frames, to the start of `out`; answers its length.
pub fn put_merged(out: &mut [u8], two: TwoFrames) -> usize
    requires { Room (FramesAt two.old.bytes.now two.old.parts two.new.bytes.now two.new.parts) merged_frame 0 out.old }
    ensures { Puts (FramesAt two.entry.old.bytes.now two.entry.old.parts two.entry.new.bytes.now two.entry.new.parts) merged_frame
        out.old out.new result }
{
    let w = put_tables(out, two);
    w + put_merged_expression(&mut out[w..], two)
}
