//! The verdicts that clients got lately.

ghost use Rattle.std.specs.Prelude.{◌≡◌, [], All, IfOk, length};

use decision_cache::Cache;
use std::alloc::{AllocError, Global};

/// How many caches there are: one for each client that may be there at once.
pub(crate) const CACHES: u64 = 64;

/// Caches without a verdict.
pub(crate) fn caches(alloc: Global) -> Result<Vec<Cache>, AllocError>
    ensures count { IfOk result (λ caches. length caches.items ≡ 64) }
    ensures empty { IfOk result (λ caches. All (λ entries. entries ≡ []) caches.items) }
{
    let mut caches = Vec::with_capacity(alloc, CACHES as usize)?;
    for _ in 0..CACHES {
        caches.push(Cache::new(alloc)?)?;
    }
    Ok(caches)
}
