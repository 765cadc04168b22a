//! What holds of every list of pushes: each function does nothing, and its clause is the law.

ghost use Rattle.std.specs.Prelude.{◌≡◌, ◌-◌, ◌^◌, ◌++◌, List, length, min};
ghost use Rattle.audit_ring.specs.Audit.{kept_of};

/// What is kept is the end of the pushes, as many of them as there is room for, and the number dropped is that of the
/// pushes before it, as far as 64 bits go.
pub fn end_of_the_pushes_is_kept<D>()
    ensures { (pushes : List D) → (front : List D)
        × (front ++ (kept_of pushes).items ≡ pushes)
        × (length (kept_of pushes).items ≡ min (length pushes) 4096)
        × ((kept_of pushes).dropped ≡ min (length front) (2 ^ 64 - 1)) }
{}
