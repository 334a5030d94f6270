ghost use Rattle.std.specs.Prelude.{ℕ, ◌≡◌};
ghost use Rattle.shm_allocator.specs.Offsets.{value_of, segment_of, offset_of, Inverse};

/// The number of a memory segment.
#[derive(Clone, Copy, Debug, PartialEq, Eq)]
pub struct SegmentId(u8);

impl SegmentId {
    pub fn new(value: u8) -> SegmentId
        ensures { result.0 ≡ value }
    {
        SegmentId(value)
    }

    pub fn value(&self) -> u8
        ensures { result ≡ self.now.0 }
    {
        let SegmentId(value) = *self;
        value
    }

    /// The largest number that a segment can have.
    pub fn max_segment_id() -> u8
        ensures { result ≡ 255 }
    {
        u8::MAX
    }
}

/// The place of a payload: an offset into a segment, both in one word of 64 bits.
#[derive(Clone, Copy, Debug, PartialEq, Eq)]
pub struct PointerOffset(u64);

impl PointerOffset {
    /// An offset into segment 0.
    pub fn new(offset: u64) -> PointerOffset
        ensures { result.0 ≡ value_of offset 0 }
    {
        PointerOffset::from_offset_and_segment_id(offset, SegmentId::new(0))
    }

    /// Of the offset the lowest 56 bits count.
    pub fn from_offset_and_segment_id(offset: u64, segment_id: SegmentId) -> PointerOffset
        ensures { result.0 ≡ value_of offset segment_id.0 }
    {
        PointerOffset(offset % (1 << 56) * 256 + segment_id.value() as u64)
    }

    pub fn from_value(value: u64) -> PointerOffset
        ensures { result.0 ≡ value }
    {
        PointerOffset(value)
    }

    pub fn as_value(&self) -> u64
        ensures { result ≡ self.now.0 }
    {
        self.0
    }

    /// The segment and the offset into it.
    pub fn parts(&self) -> (u8, u64)
        ensures { result ≡ (segment_of self.now.0, offset_of self.now.0) }
    {
        ((self.0 % 256) as u8, self.0 / 256)
    }

    pub fn offset(&self) -> u64
        ensures { result ≡ offset_of self.now.0 }
    {
        self.parts().1
    }

    pub fn segment_id(&self) -> SegmentId
        ensures { result.0 ≡ segment_of self.now.0 }
    {
        SegmentId::new(self.parts().0)
    }

    /// Moves the same offset to another segment.
    pub fn set_segment_id(&mut self, segment_id: SegmentId)
        ensures { self.new.0 ≡ value_of (offset_of self.old.0) segment_id.0 }
    {
        *self = PointerOffset::from_offset_and_segment_id(self.offset(), segment_id);
    }
}

/// Making a value and taking it apart are inverse to each other.
pub fn offsets_are_inverse()
    ensures { Inverse }
{}
