//! What the clients of one door took.

ghost use Rattle.door_budgets.specs.Laws.{WhoRestsKeepsToItsPart};
ghost use Rattle.door_budgets.specs.Taking.{after_taking, after_taking_alone, after_taking_by, counted, due_for, is_at_work, rest_for};
ghost use Rattle.std.specs.Prelude.{◌≡◌};

/// For how long somebody counts as at work after they had something to do.
const AT_WORK: u64 = 20_000_000;

/// How much the clients of a door may take at once beyond their part.
const AT_ONCE: u64 = 10_000_000;

/// For how long they rest at most for what they took.
const LONGEST: u64 = 1_000_000_000;

/// What the clients of a door took.
#[derive(Clone, Copy, Debug, PartialEq, Eq, Drop)]
pub struct Taken {
    pub(crate) principal: u32,
    /// When they said last that they took something.
    pub(crate) last: u64,
    /// When their part makes up for all that they took.
    pub(crate) even: u64,
}

/// Whether somebody is at work who had something to do at that moment last.
pub(crate) fn is_at_work(last: u64, now: u64) -> bool
    ensures { result ≡ is_at_work last now }
{
    now.saturating_sub(last) < AT_WORK
}

/// How many processors count, of which the doors have half: twice as many as there are while the driver carries nothing.
fn counted(carries: bool, processors: u64) -> u64
    ensures { result ≡ counted carries processors }
{
    if carries {
        processors
    } else {
        processors.saturating_mul(2)
    }
}

/// How long it takes until the part of one of so many doors makes up for so much: they have half of these processors.
fn due_for(spent: u64, doors: u64, processors: u64) -> u64
    ensures { result ≡ due_for spent doors processors }
{
    spent.saturating_mul(2).saturating_mul(doors) / processors.max(1)
}

impl Taken {
    /// So much was taken, where so many doors are at work.
    fn take(self, now: u64, spent: u64, doors: u64, processors: u64) -> Taken
        ensures { result ≡ after_taking self now spent doors processors }
    {
        let due = due_for(spent, doors, processors);
        let even = self.even.max(now).saturating_add(due);
        Taken {
            last: now,
            even: even.min(now.saturating_add(LONGEST)),
            ..self
        }
    }

    /// Something was taken, and nobody else is at work.
    fn take_alone(self, now: u64) -> Taken
        ensures { result ≡ after_taking_alone self now }
    {
        Taken {
            last: now,
            even: now,
            ..self
        }
    }

    /// So much was taken by the clients of that principal, if it is this door's, where so many others are at work, or the driver
    /// itself is.
    #[tactic(auto, unfolding(crate::specs::Taking::after_taking_by))]
    pub(crate) fn take_by(
        self,
        principal: u32,
        now: u64,
        spent: u64,
        others: u64,
        carries: bool,
        processors: u64,
    ) -> Taken
        ensures { result ≡ after_taking_by principal now spent others carries processors self }
    {
        if self.principal != principal {
            return self;
        }
        if others == 0 && !carries {
            return self.take_alone(now);
        }
        let processors = counted(carries, processors);
        self.take(now, spent, others.saturating_add(1), processors)
    }

    /// For how long their part does not make up yet for what they took, but for what they may take at once.
    pub(crate) fn rest(self, now: u64) -> u64
        ensures { result ≡ rest_for self now }
    {
        self.even.saturating_sub(now).saturating_sub(AT_ONCE)
    }
}

/// Whoever rests for what they took before they take more, while others are at work, takes in any time what their part makes up for
/// in that time, and ten milliseconds.
pub fn who_rests_keeps_to_its_part()
    ensures { WhoRestsKeepsToItsPart }
{}
