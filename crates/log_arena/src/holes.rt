// The parts of the region that no lease has: what holds their bytes beside where they are.
ghost use Rattle.std.specs.Prelude.{◌≡◌, ℕ, ◌+◌, ◌-◌, ◌*◌, ◌/◌, ◌%◌, ◌^◌, ◌<◌, ◌≤◌, ◌⊎◌, ◌↔◌, false, true, List, [], ◌∷◌, length, insert, remove, slice_index_or, IsTrue, IfOk, IfSome, IsSome, min, vec_len, map};
ghost use Rattle.std.specs.Vec.{vec_capacity};
ghost use denote.RawPtr.{InBlock, ◌+ₚ◌};
ghost use Rattle.log_arena.specs.Pages.{marked};
ghost use Rattle.log_arena.specs.Spans.{Span, Spaced, IsSpan, Remade, paged, seamed, table, total};

use crate::memory::{Run, apart, cut, merge};
use std::alloc::{AllocError, Global};
use std::marker::{Model, Send};

// The spans are in bytes, with the run of each at its index. Contracts see them in pages.
#[derive(Drop)]
pub(crate) struct Holes {
    base: *mut u8,
    spans: Vec<(usize, usize)>,
    runs: Vec<Run>,
}

// The pointer is where the region begins. What lies there is the runs' own.
unsafe impl Send for Holes {}

impl Model for Holes {
    ghost use Rattle.std.specs.Prelude.{ℕ, List, min};
    ghost use Rattle.std.specs.Vec.{vec_capacity};
    ghost use denote.RawPtr.{InBlock};
    ghost use Rattle.log_arena.specs.Layout.{Layout, layout_code};
    ghost use Rattle.log_arena.specs.Spans.{pages_of, Lies};

    ghost Value = { Layout };

    ghost coded = { layout_code };

    ghost view = { λ h. record { base = h.base; spans = pages_of h.spans.items; room = min (vec_capacity h.spans) (vec_capacity h.runs) } };

    ghost invariant = { λ h. InBlock h.base × Lies h.base h.spans.items h.runs.items };
}

impl Holes {
    // No holes yet, and room for so many.
    pub(crate) fn room_for(
        alloc: Global,
        room: usize,
    ) -> Result<(Vec<(usize, usize)>, Vec<Run>), AllocError>
        ensures { IfOk result (λ r. (r.0.items ≡ []) × (r.1.items ≡ []) × (vec_capacity r.0 ≡ room)
            × (vec_capacity r.1 ≡ room)) }
    {
        let spans = Vec::with_capacity(alloc, room)?;
        let runs = Vec::with_capacity(alloc, room)?;
        Ok((spans, runs))
    }

    // All of a region is one hole.
    pub(crate) fn whole(
        base: *mut u8,
        size: usize,
        run: Run,
        room: (Vec<(usize, usize)>, Vec<Run>),
    ) -> Holes
        requires base { InBlock base }
        requires is { IsSpan base (0, size) run }
        requires none { (room.0.items ≡ []) × (room.1.items ≡ []) }
        requires some { (0 < vec_capacity room.0) × (0 < vec_capacity room.1) }
        ensures { result ≡ record {
          base = base;
          spans = (0, size / 4096) ∷ [];
          room = min (vec_capacity room.0) (vec_capacity room.1);
        } }
    {
        let (mut spans, mut runs) = room;
        put(&mut spans, 0, (0, size));
        put(&mut runs, 0, run);
        Holes { base, spans, runs }
    }

    // The run of all `size` bytes, if they are one hole.
    pub(crate) fn into_whole(self, size: usize) -> Option<Run>
        requires { (0 < size) × (size % 4096 ≡ 0) }
        ensures exact { self.spans ≡ (0, size / 4096) ∷ [] → IsSome result }
        ensures run { IfSome result (λ r. (r.ptr ≡ self.base) × (length r.items ≡ size)) }
    {
        let mut holes = self;
        if holes.len() != 1 {
            return None;
        }
        let (hole, run) = holes.take_out(0);
        if hole.0 == 0 && hole.1 == size {
            Some(run)
        } else {
            None
        }
    }

    // How many there are.
    pub(crate) fn len(&self) -> usize
        ensures { result ≡ length self.now.spans }
    {
        self.spans.len()
    }

    // The hole at `at` goes out.
    fn take_out(&mut self, at: usize) -> ((usize, usize), Run)
        requires { at < length self.old.spans }
        ensures is { IsSpan self.old.base result.0 result.1 }
        ensures placed { InBlock self.old.base }
        ensures was { paged result.0 ≡ slice_index_or self.old.spans at (0, 0) }
        ensures others { self.new ≡ record self.old { spans = remove self.old.spans at } }
    {
        (self.spans.remove(at), self.runs.remove(at))
    }

    // A hole comes in at `at`.
    fn put_in(&mut self, at: usize, span: (usize, usize), run: Run)
        requires place { at ≤ length self.old.spans }
        requires room { length self.old.spans < self.old.room }
        requires is { IsSpan self.old.base span run }
        ensures { self.new ≡ record self.old { spans = insert self.old.spans at (paged span) } }
    {
        put(&mut self.spans, at, span);
        put(&mut self.runs, at, run);
    }

    // Whether the hole at `at` touches the next.
    fn touch(&self, at: usize) -> bool
        ensures touching { result ≡ true → (at + 1 < length self.now.spans) × (at + 1 < 2 ^ 63)
            × ((slice_index_or self.now.spans at (0, 0)).0
            + (slice_index_or self.now.spans at (0, 0)).1
            ≡ (slice_index_or self.now.spans (at + 1) (0, 0)).0) }
        ensures apart { result ≡ false → seamed at self.now.spans ≡ self.now.spans }
    {
        let count = self.spans.len();
        if at >= count || count - at < 2 {
            return false;
        }
        let front = self.spans[at];
        front.0 + front.1 == self.spans[at + 1].0
    }

    // Joins the hole at `at` to the next, if they touch.
    fn seam(&mut self, at: usize)
        requires { length self.old.spans ≤ self.old.room }
        ensures { self.new ≡ record self.old { spans = seamed at self.old.spans } }
    {
        if !self.touch(at) {
            return;
        }
        let (behind, after) = self.take_out(at + 1);
        let (here, before) = self.take_out(at);
        self.put_in(at, (here.0, here.1 + behind.1), merge(before, after));
    }

    // A run that comes back has no byte in common with the hole at `at`.
    fn clear_of(&mut self, at: usize, span: (usize, usize), run: Run) -> Run
        requires room { length self.old.spans ≤ self.old.room }
        requires is { IsSpan self.old.base span run }
        ensures same { self.new ≡ self.old }
        ensures run { result ≡ run }
        ensures apart { at < length self.old.spans → (((paged span).0 + (paged span).1
            ≤ (slice_index_or self.old.spans at (0, 0)).0)
            ⊎ ((slice_index_or self.old.spans at (0, 0)).0
            + (slice_index_or self.old.spans at (0, 0)).1 ≤ (paged span).0))
            × (0 < (slice_index_or self.old.spans at (0, 0)).1) }
    {
        if at >= self.len() {
            return run;
        }
        let (hole, other) = self.take_out(at);
        let (run, other) = apart(run, other);
        self.put_in(at, hole, other);
        run
    }

    // How many holes begin before `place`.
    fn begun_before(&self, place: usize) -> usize
        requires { place % 4096 ≡ 0 }
        ensures bound { result ≤ length self.now.spans }
        ensures ahead { (k : ℕ) → k < result → (slice_index_or self.now.spans k (0, 0)).0 < place / 4096 }
        ensures behind { result < length self.now.spans → place / 4096 ≤ (slice_index_or self.now.spans result (0, 0)).0 }
    {
        begun(self.spans.as_slice(), place)
    }

    // Where a run that comes back stands among the holes.
    pub(crate) fn place_of(&mut self, span: (usize, usize), run: Run) -> (usize, Run)
        requires room { length self.old.spans ≤ self.old.room }
        requires is { IsSpan self.old.base span run }
        ensures same { self.new ≡ self.old }
        ensures run { result.1 ≡ run }
        ensures bound { result.0 ≤ length self.old.spans }
        ensures left { (i : ℕ) → result.0 ≡ i + 1 → (slice_index_or self.old.spans i (0, 0)).0
            + (slice_index_or self.old.spans i (0, 0)).1 ≤ (paged span).0 }
        ensures right { result.0 < length self.old.spans → (paged span).0 + (paged span).1
            ≤ (slice_index_or self.old.spans result.0 (0, 0)).0 }
    {
        let at = self.begun_before(span.0);
        let run = self.clear_of(at, span, run);
        if at == 0 {
            return (at, run);
        }
        let run = self.clear_of(at - 1, span, run);
        (at, run)
    }

    // A run comes back, and is joined to the holes that it touches.
    pub(crate) fn put_back(&mut self, span: (usize, usize), run: Run)
        requires room { length self.old.spans < self.old.room }
        requires is { IsSpan self.old.base span run }
        ensures rest { (self.new.base ≡ self.old.base) × (self.new.room ≡ self.old.room) }
        ensures given { (end : ℕ) → Spaced 0 end self.old.spans → (paged span).0 + (paged span).1 ≤ end
            → Remade false end self.old.spans (paged span) self.new.spans }
    {
        let (at, run) = self.place_of(span, run);
        self.put_in(at, span, run);
        self.seam(at);
        if at == 0 {
            return;
        }
        self.seam(at - 1);
    }

    // The first hole of at least `len` bytes, or how many there are.
    pub(crate) fn first_fit(&self, len: usize) -> usize
        requires { len % 4096 ≡ 0 }
        ensures bound { result ≤ length self.now.spans }
        ensures short { (k : ℕ) → k < result → (slice_index_or self.now.spans k (0, 0)).1 < len / 4096 }
        ensures long { result < length self.now.spans → len / 4096 ≤ (slice_index_or self.now.spans result (0, 0)).1 }
    {
        first_long(self.spans.as_slice(), len)
    }

    // The first `len` bytes of the hole at `at`, and their place.
    pub(crate) fn take_front(&mut self, at: usize, len: usize) -> (usize, Run)
        requires place { at < length self.old.spans }
        requires room { length self.old.spans ≤ self.old.room }
        requires len { (0 < len) × (len % 4096 ≡ 0) }
        requires fits { len / 4096 ≤ (slice_index_or self.old.spans at (0, 0)).1 }
        ensures is { IsSpan self.old.base (result.0, len) result.1 }
        ensures placed { InBlock self.old.base }
        ensures first { result.0 / 4096 ≡ (slice_index_or self.old.spans at (0, 0)).0 }
        ensures rest { (self.new.base ≡ self.old.base) × (self.new.room ≡ self.old.room) }
        ensures taken { (end : ℕ) → Spaced 0 end self.old.spans
            → Remade true end self.old.spans (result.0 / 4096, len / 4096) self.new.spans }
    {
        let (hole, run) = self.take_out(at);
        if hole.1 == len {
            return (hole.0, run);
        }
        let (front, back) = cut(run, len);
        self.put_in(at, (hole.0 + len, hole.1 - len), back);
        (hole.0, front)
    }

    // Where a place of the region is in memory.
    pub(crate) fn start_of(&self, place: usize) -> *mut u8
        ensures { result ≡ self.now.base +ₚ place }
    {
        unsafe { self.base.byte_add(place) }
    }

    // The bytes of all holes.
    pub(crate) fn total(&self) -> usize
        requires { total self.now.spans ≤ 65536 }
        ensures { result ≡ 4096 * total self.now.spans }
    {
        sum_of(self.spans.as_slice())
    }

    pub(crate) fn as_slice(&self) -> &[(usize, usize)]
        ensures { result.now ≡ map (λ h. (4096 * h.0, 4096 * h.1)) self.now.spans }
    {
        self.spans.as_slice()
    }
}

// How many of the spans begin before `place`, up to the first that does not.
fn begun(spans: &[(usize, usize)], place: usize) -> usize
    ensures bound { result ≤ length spans.now }
    ensures ahead { (k : ℕ) → k < result → (slice_index_or spans.now k (0, 0)).0 < place }
    ensures behind { result < length spans.now → place ≤ (slice_index_or spans.now result (0, 0)).0 }
{
    for (i, s) in spans.iter().enumerate() {
        if s.0 >= place {
            return i;
        }
    }
    spans.len()
}

// The first of the spans that has `len`, or how many there are.
fn first_long(spans: &[(usize, usize)], len: usize) -> usize
    ensures bound { result ≤ length spans.now }
    ensures short { (k : ℕ) → k < result → (slice_index_or spans.now k (0, 0)).1 < len }
    ensures long { result < length spans.now → len ≤ (slice_index_or spans.now result (0, 0)).1 }
{
    for (i, s) in spans.iter().enumerate() {
        if s.1 >= len {
            return i;
        }
    }
    spans.len()
}

// The sum of the lengths.
fn sum_of(spans: &[(usize, usize)]) -> usize
    requires { total spans.now < 2 ^ 63 }
    ensures { result ≡ total spans.now }
{
    let mut sum = 0;
    for s in spans {
        sum += s.1;
    }
    sum
}

// An insert for which there is room.
fn put<T: Drop>(v: &mut Vec<T>, at: usize, x: T)
    requires { (at ≤ vec_len v.old) × (vec_len v.old < vec_capacity v.old) }
    ensures items { v.new.items ≡ insert v.old.items at x }
    ensures capacity { vec_capacity v.new ≡ vec_capacity v.old }
{
    match v.insert(at, x) {
        Ok(()) => {}
        Err(_) => unreachable!(),
    }
}
