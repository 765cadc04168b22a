// Logs without frames.
ghost use Rattle.std.specs.Prelude.{◌≡◌, ◌%◌, [], IfOk};
ghost use Rattle.term_log.specs.Ident.{IsIdent};

use log_arena::{Arena, NoRoom};
use std::alloc::Global;
use term_log::{Ident, LogRoom, TermLog};

/// A log without frames, in a lease of this arena. `NoRoom` where there is no room for its terms or its pairs.
fn open(alloc: Global, arena: &mut Arena, ident: Ident) -> Result<TermLog, NoRoom>
    requires ident { IsIdent ident }
    requires pages { ident.term_length % 4096 ≡ 0 }
    ensures ident { IfOk result (λ log. log.kept.ident ≡ ident) }
    ensures tail { IfOk result (λ log. log.kept.tail ≡ ident.start) }
    ensures sent { IfOk result (λ log. log.sender.position ≡ ident.start) }
    ensures pairs { IfOk result (λ log. log.pairs ≡ []) }
{
    let Ok(room) = LogRoom::new(alloc) else {
        return Err(NoRoom);
    };
    let lease = arena.lease(3 * ident.term_length as usize)?;
    Ok(TermLog::open(room, lease, ident))
}

/// A log without frames, in an arena of its own, which its lease outlives.
pub(crate) fn opened(alloc: Global, ident: Ident) -> Result<TermLog, NoRoom>
    requires ident { IsIdent ident }
    requires pages { ident.term_length % 4096 ≡ 0 }
    ensures ident { IfOk result (λ log. log.kept.ident ≡ ident) }
    ensures tail { IfOk result (λ log. log.kept.tail ≡ ident.start) }
    ensures sent { IfOk result (λ log. log.sender.position ≡ ident.start) }
    ensures pairs { IfOk result (λ log. log.pairs ≡ []) }
{
    match Arena::new(alloc, 48) {
        Ok(mut arena) => open(alloc, &mut arena, ident),
        Err(_) => Err(NoRoom),
    }
}
