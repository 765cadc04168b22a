ghost use Rattle.stream_gaps.specs.Standing.{is_at_gap, is_still, stands_at_gap, stood};
ghost use Rattle.std.specs.Prelude.{◌≡◌};

/// What a look at a stream shows of its reader.
#[derive(Clone, Copy, Debug, PartialEq, Eq)]
pub struct Reading {
    /// Up to which position it was read.
    pub position: u64,
    /// Up to which position it is there without a gap.
    pub received: u64,
    /// Whether bytes of it were asked for again since the last look.
    pub asked: bool,
}

/// How long the reader of a stream stands at a gap, as looks show it.
///
/// A receiver asks again for what is missing as long as it is (Aeron Transport Protocol Specification, NAK). Its first gap is
/// where the stream that is there without one ends. So the reader is at a gap where two looks in a row find it at that end, in
/// one place, and bytes were asked for between them.
#[derive(Clone, Copy, Debug, PartialEq, Eq)]
pub struct Standing {
    /// Where the reader was at the last look.
    pub position: u64,
    /// How many looks in a row found it at the gap that is there.
    pub looks: u64,
}

impl Standing {
    /// The reader begins at that position.
    pub fn new(position: u64) -> Standing
        ensures { result ≡ record { position = position; looks = 0 } }
    {
        Standing { position, looks: 0 }
    }

    /// Whether the reader is where it was at the last look, and has read all that is there without a gap.
    fn is_still(&self, reading: Reading) -> bool
        ensures { result ≡ is_still self.now reading }
    {
        reading.position == self.position && reading.received == reading.position
    }

    /// Whether it is at a gap: this look or an earlier one shows that bytes are missing there.
    fn is_at_gap(&self, reading: Reading) -> bool
        ensures { result ≡ is_at_gap self.now reading }
    {
        self.is_still(reading) && (reading.asked || self.looks > 0)
    }

    /// Notes a look. Whether the reader has stood at one gap for more looks than `most`, and the gap is still there.
    pub fn look(&mut self, reading: Reading, most: u64) -> bool
        ensures stands { result ≡ stands_at_gap self.old reading most }
        ensures stood { self.new ≡ stood self.old reading }
    {
        let stands = self.is_still(reading) && reading.asked && self.looks > most;
        let looks = if self.is_at_gap(reading) {
            self.looks.saturating_add(1)
        } else {
            0
        };
        *self = Standing {
            position: reading.position,
            looks,
        };
        stands
    }
}
