// Frames that are merged.
ghost use Rattle.std.specs.Prelude.{◌+◌, ◌≤◌};
ghost use Rattle.definitions.specs.Words.Limits.{most_records};

use frame_reader::frame_bodies::Frame;

// Where the parts of the held frame stand in its bytes, and those of the new one; and how many levels the And of their filters has.
#[derive(Clone, Copy)]
pub struct Frames {
    pub old: Frame,
    pub new: Frame,
    pub depth: usize,
}

// The bytes of a frame, and where its parts stand in them.
#[derive(Clone, Copy)]
pub struct PlacedFrame<'a> {
    pub bytes: &'a [u8],
    pub parts: Frame,
}

// The held frame and the new one, which have no more records together than a frame may have.
#[derive(Clone, Copy)]
pub struct TwoFrames<'a> {
    pub old: PlacedFrame<'a>,
    pub new: PlacedFrame<'a>,
    pub ghost few: { old.parts.columns + new.parts.columns ≤ most_records },
}
