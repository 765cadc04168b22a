// The bytes of the region, in parts that are owned one by one. A `Run` takes no memory when the program
// runs: it says who may reach which bytes. The seven functions below are the only ones of this crate
// whose proofs follow a pointer; what is above them is safe code.
ghost use Rattle.std.specs.Prelude.{◌≡◌, ℕ, ◌+◌, ◌^◌, ◌<◌, ◌≤◌, List, ◌++◌, length, take, drop};
ghost use base.Fml.{ftrue, fex, fall, fwand, fsep, feq};
ghost use denote.RawPtr.{InBlock, Ptr, ◌+ₚ◌};
ghost use Rattle.log_arena.specs.Ownership.{Apart, Extent, extent_code, run_owns};

use std::marker::{Model, Move, Owns};
use std_alloc::vec::{Lodged, lodge};

// The bytes `items` at `ptr`, which nothing else can reach. One that is dropped is never used again.
#[derive(Drop)]
pub(crate) struct Run {
    ghost ptr: { Ptr },
    ghost items: { List ℕ },
}

impl Model for Run {
    ghost also_owns = { λ r. run_owns r.ptr r.items };
}

// A `Vec` whose bytes are out. With as many bytes at its place it is a `Vec` again.
pub(crate) struct Deed {
    vec: Vec<u8>,
}

impl Owns for Deed {
    ghost Value = { Extent };

    ghost coded = { extent_code };

    ghost shr_at = { λ _ _ _. ftrue };
}

impl Move for Deed {
    ghost own_val = { λ e vs. fall (List ℕ) (λ xs. fwand (fsep (feq ℕ (length xs) e.len) (run_owns e.ptr xs))
        (fex Inside (λ d. fsep (feq (List ℕ) d.vec.items xs) (Fields.own_val d vs)))) };
}

unsafe impl Send for Run {}

unsafe impl Send for Deed {}

// Takes the bytes out of a `Vec`.
pub(crate) fn detach(vec: Vec<u8>) -> (Run, Deed)
    requires { 0 < vec.len }
    ensures { (result.0.ptr ≡ vec.ptr) × (result.0.items ≡ vec.items) × (result.1.ptr ≡ vec.ptr)
        × (result.1.len ≡ vec.len) × InBlock vec.ptr }
{
    (Run {}, Deed { vec })
}

// Puts bytes back, which may have changed meanwhile.
pub(crate) fn attach(run: Run, deed: Deed) -> Vec<u8>
    requires { (run.ptr ≡ deed.ptr) × (length run.items ≡ deed.len) }
    ensures { result.items ≡ run.items }
{
    let Run {} = run;
    let Deed { vec } = deed;
    vec
}

// A `Vec` that lies in a run, neither grows nor is freed.
pub(crate) fn house(ptr: *mut u8, len: usize, run: Run) -> Vec<u8, Lodged>
    requires { (run.ptr ≡ ptr) × (length run.items ≡ len) × (0 < len) × (len < 2 ^ 63) }
    ensures { (result.items ≡ run.items) × (result.len ≡ len) × (result.cap ≡ len)
        × (result.ptr ≡ ptr) }
{
    let Run {} = run;
    unsafe { lodge(ptr, len, len) }
}

// The run that such a `Vec` lies in.
pub(crate) fn vacate(vec: Vec<u8, Lodged>) -> Run
    requires { 0 < vec.len }
    ensures { (result.ptr ≡ vec.ptr) × (result.items ≡ vec.items) }
{
    let _len = vec.dislodge();
    Run {}
}

// The first `mid` bytes, and the others.
pub(crate) fn cut(run: Run, mid: usize) -> (Run, Run)
    requires { mid ≤ length run.items }
    ensures { (result.0.ptr ≡ run.ptr) × (result.0.items ≡ take mid run.items)
        × (result.1.ptr ≡ run.ptr +ₚ mid) × (result.1.items ≡ drop mid run.items) }
{
    let Run {} = run;
    (Run {}, Run {})
}

// Two runs side by side as one.
pub(crate) fn merge(front: Run, back: Run) -> Run
    requires { back.ptr ≡ front.ptr +ₚ length front.items }
    ensures { (result.ptr ≡ front.ptr) × (result.items ≡ front.items ++ back.items) }
{
    let Run {} = front;
    let Run {} = back;
    Run {}
}

// Two runs have no byte in common.
pub(crate) fn apart(a: Run, b: Run) -> (Run, Run)
    requires { (0 < length a.items) × (0 < length b.items) }
    ensures { (result.0 ≡ a) × (result.1 ≡ b)
        × InBlock a.ptr × Apart a.ptr (length a.items) b.ptr (length b.items) }
{
    (a, b)
}
