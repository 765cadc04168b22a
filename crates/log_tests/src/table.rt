// What a log of 64 KiB terms with one reader has to be, as a table of the positions of its stream, 32 to a cell. Nothing
// is ever taken out of it: what is below the base's term is known by its position alone.
ghost use Rattle.std.specs.Prelude.{◌≤◌};

use image_log::Insert;
use std::alloc::{AllocError, Global};

/// The positions of a term.
pub(crate) const TERM: u64 = 65_536;

/// How far above the base frames may begin.
const WINDOW: u64 = 32_768;

/// What stands at 32 positions.
#[derive(Clone, Copy, Debug, PartialEq, Eq)]
pub(crate) enum Cell {
    /// Nothing.
    Free,
    /// A data frame without a payload.
    Short,
    /// The first half of a data frame, whose payload is one byte 32 times.
    Long(u8),
    /// The first half of a pad.
    Pad,
    /// The second half of either.
    Rest,
}

impl Cell {
    /// How many positions a frame takes that begins here.
    pub(crate) fn span(self) -> u64
        ensures { result ≤ 64 }
    {
        match self {
            Cell::Long(_) | Cell::Pad => 64,
            Cell::Short => 32,
            Cell::Free | Cell::Rest => 0,
        }
    }

    /// A frame that looks random.
    pub(crate) fn chosen(choice: u64) -> Cell {
        match choice % 8 {
            0..=2 => Cell::Short,
            3 => Cell::Pad,
            fill => Cell::Long(fill as u8),
        }
    }
}

/// How often each answer was given.
#[derive(Clone, Copy, Debug)]
struct Seen {
    taken: u64,
    repeat: u64,
    overlap: u64,
    below: u64,
    beyond: u64,
}

#[derive(Debug, Drop)]
pub(crate) struct Table {
    cells: Vec<Cell>,
    seen: Seen,
    /// The position up to which all is read.
    pub(crate) base: u64,
    /// The position up to which all is there.
    pub(crate) contiguous: u64,
    /// The greatest position heard of.
    greatest: u64,
}

impl Table {
    /// So many cells, all of them free.
    pub(crate) fn new(alloc: Global, cells: usize) -> Result<Table, AllocError> {
        Ok(Table {
            cells: Vec::from_elem(alloc, Cell::Free, cells)?,
            seen: Seen {
                taken: 0,
                repeat: 0,
                overlap: 0,
                below: 0,
                beyond: 0,
            },
            base: 0,
            contiguous: 0,
            greatest: 0,
        })
    }

    /// What stands at a position.
    pub(crate) fn cell(&self, position: u64) -> Cell {
        match self.cells.get((position / 32) as usize) {
            Some(cell) => *cell,
            None => Cell::Free,
        }
    }

    fn set(&mut self, position: u64, cell: Cell) {
        let index = (position / 32) as usize;
        if index < self.cells.len() {
            self.cells[index] = cell;
        }
    }

    /// Where the first frame begins that is no pad, from a position on that is whole; without one, where what is whole ends.
    pub(crate) fn data_from(&self, position: u64) -> u64 {
        let mut at = position;
        for _ in 0..self.cells.len() {
            if self.cell(at) != Cell::Pad {
                return at;
            }
            at = at.saturating_add(64);
        }
        at
    }

    /// Where frames are no longer taken.
    fn reach(&self) -> u64 {
        self.base.saturating_add(WINDOW)
    }

    /// A position that looks random: mostly where the stream goes on, else some way before or after that, or about the
    /// window's end.
    pub(crate) fn chosen_position(&self, choice: u64) -> u64 {
        let way = choice / 16 % 32 * 32;
        match choice % 16 {
            0..=9 => self.contiguous,
            10..=12 => self.contiguous.saturating_add(way),
            13 | 14 => self.contiguous.saturating_sub(way * 16),
            _ => self.reach().saturating_add(way % 128).saturating_sub(64),
        }
    }

    // What becomes of a frame.
    fn answer(&self, position: u64, cell: Cell) -> Insert {
        let span = cell.span();
        if position < self.base - self.base % TERM {
            return Insert::Below;
        }
        if position >= self.reach() || position % TERM + span > TERM {
            return Insert::Beyond;
        }
        if self.cell(position) == cell {
            return Insert::Repeat;
        }
        let last = position.saturating_add(span - span.min(32));
        if self.cell(position) == Cell::Free && self.cell(last) == Cell::Free {
            Insert::Taken
        } else {
            Insert::Overlap
        }
    }

    /// Hands in a frame.
    pub(crate) fn insert(&mut self, position: u64, cell: Cell) -> Insert {
        let answer = self.answer(position, cell);
        self.count(answer);
        if let Insert::Taken = answer {
            self.put(position, cell);
        }
        self.greatest = self.greatest.max(position.saturating_add(cell.span()));
        answer
    }

    fn put(&mut self, position: u64, cell: Cell) {
        if cell.span() > 32 {
            self.set(position.saturating_add(32), Cell::Rest);
        }
        self.set(position, cell);
        for _ in 0..self.cells.len() {
            let span = self.cell(self.contiguous).span();
            if span == 0 {
                return;
            }
            self.contiguous = self.contiguous.saturating_add(span);
        }
    }

    fn count(&mut self, answer: Insert) {
        let count = match answer {
            Insert::Taken => &mut self.seen.taken,
            Insert::Repeat => &mut self.seen.repeat,
            Insert::Overlap => &mut self.seen.overlap,
            Insert::Below => &mut self.seen.below,
            Insert::Beyond => &mut self.seen.beyond,
        };
        *count = count.saturating_add(1);
    }

    /// Whether each answer was given a good many times, and the base came into the third term.
    pub(crate) fn has_seen_all(&self) -> bool {
        let seen = self.seen;
        seen.taken > 1000
            && seen.repeat > 50
            && seen.overlap > 50
            && seen.below > 50
            && seen.beyond > 50
            && self.base > 2 * TERM
    }

    // Where the first frame from the contiguous position on begins; without one, the greatest position heard of.
    fn next(&self) -> u64 {
        let first = self.contiguous / 32;
        for i in first..self.greatest.min(self.reach()) / 32 {
            let position = i.saturating_mul(32);
            if self.cell(position) != Cell::Free {
                return position;
            }
        }
        self.greatest
    }

    /// Whether that is what is missing next.
    pub(crate) fn has_gap(&self, gap: Option<(u64, u32)>) -> bool {
        let end = self.next().min(self.reach());
        match gap {
            None => end <= self.contiguous,
            Some((position, length)) => {
                position == self.contiguous && position.saturating_add(u64::from(length)) == end
            }
        }
    }
}
