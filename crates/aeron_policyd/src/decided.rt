//! What was decided lately, for operators who ask: the last decisions, and apart from them the last denials.

ghost use Rattle.aeron_policyd.specs.Decided.{IsPage, next_of};
ghost use Rattle.aeron_policyd.specs.declared.decided.Taken.{Taken};
ghost use Rattle.std.specs.Prelude.{◌≡◌, ◌+◌, IfOk, List, length, min, take};

use crate::audited::is_repeated;
use crate::book::Books;
use audit_ring::AuditOf;
use denial_notes::{Fresh, Mark};
use policy_core::Decision;
use service_doors::Decided;
use std::alloc::{AllocError, Global};

/// How many decisions one answer has at most.
const MOST: usize = 256;

/// A decision.
#[derive(Clone, Copy, Debug, PartialEq, Eq)]
pub(crate) struct Taken {
    /// When it was taken, in nanoseconds since 1970.
    pub(crate) moment: u64,
    pub(crate) decision: Decision,
}

/// Which decisions an operator wants, and how they are written.
#[derive(Clone, Copy)]
pub(crate) struct Choice {
    /// Denials alone.
    denied: bool,
    /// As JSON.
    pub(crate) json: bool,
}

impl Choice {
    /// What the number of a request says.
    pub(crate) fn of(number: u32) -> Choice {
        Choice {
            denied: number % 2 == 1,
            json: number / 2 % 2 == 1,
        }
    }
}

/// The last decisions. The number of one is how many came before it.
#[derive(Drop)]
pub(crate) struct Lately {
    all: AuditOf<Taken>,
    denied: AuditOf<Taken>,
    /// The last one of all.
    before: Option<Decision>,
}

/// What one answer tells: how many are passed over, what comes then, and the number of what comes after that.
#[derive(Clone, Copy)]
struct Page<'a> {
    passed: u64,
    came: &'a [Taken],
    next: u64,
}

/// The first of these, as many as one answer has.
fn front_of(came: &[Taken]) -> &[Taken]
    ensures { result.now ≡ take (min (length came.now) 256) came.now }
{
    let many = came.len().min(MOST);
    &came[..many]
}

/// The page from a number on, of decisions that are kept after so many others.
fn page_of(dropped: u64, kept: &[Taken], from: u64) -> Page<'_>
    ensures page { (before : List Taken) → length before ≡ dropped → IsPage before kept.now from result.came.now result.passed }
    ensures next { result.next ≡ next_of from result.passed (length result.came.now) (dropped + length kept.now) }
{
    let mut mark = Mark { seen: from };
    let Fresh { came, passed } = mark.look(dropped, kept);
    let came = front_of(came);
    let next = from
        .saturating_add(passed)
        .saturating_add(came.len() as u64);
    Page {
        passed,
        came,
        next: next.min(mark.seen),
    }
}

/// Those that are kept.
fn kept_in(alloc: Global, audit: &AuditOf<Taken>) -> Result<Vec<Taken>, AllocError>
    ensures { IfOk result (λ kept. kept.items ≡ audit.now.items) }
{
    let mut kept = Vec::new(alloc);
    for taken in audit.items() {
        kept.push(*taken)?;
    }
    Ok(kept)
}

/// The decisions of a page, from a number on.
fn put_page(
    alloc: Global,
    books: &Books,
    from: u64,
    audit: &AuditOf<Taken>,
    json: bool,
) -> Result<Decided, AllocError> {
    let kept = kept_in(alloc, audit)?;
    let page = page_of(audit.dropped(), kept.as_slice(), from);
    let mut lines = String::new(alloc);
    if page.passed > 0 {
        lines.push_str(books.passed_over(alloc, page.passed, json)?.as_str())?;
    }
    for taken in page.came {
        lines.push_str(books.taken(alloc, taken, json)?.as_str())?;
    }
    Ok(Decided {
        lines,
        next: page.next,
    })
}

impl Lately {
    /// Nothing was decided yet.
    pub(crate) fn new(alloc: Global) -> Result<Lately, AllocError> {
        Ok(Lately {
            all: AuditOf::new(alloc)?,
            denied: AuditOf::new(alloc)?,
            before: None,
        })
    }

    /// It was decided. What is allowed and the same as the one before it is left out.
    pub(crate) fn take(&mut self, taken: Taken) {
        let decision = taken.decision;
        if !decision.verdict.allow {
            self.denied.push(taken);
        } else if is_repeated(&self.before, &decision) {
            return;
        }
        self.before = Some(decision);
        self.all.push(taken);
    }

    /// What was decided from a number on: a page of it.
    pub(crate) fn from(
        &self,
        alloc: Global,
        books: &Books,
        from: u64,
        choice: Choice,
    ) -> Result<Decided, AllocError> {
        let audit = if choice.denied {
            &self.denied
        } else {
            &self.all
        };
        put_page(alloc, books, from, audit, choice.json)
    }
}
