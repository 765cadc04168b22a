ghost use Rattle.denial_notes.specs.Looks.{IsNew};
ghost use Rattle.std.specs.Prelude.{◌≡◌, ◌+◌, ◌-◌, ◌^◌, List, length, min};

/// What is new of what an audit keeps.
#[derive(Clone, Copy)]
pub struct Fresh<'a, D> {
    pub came: &'a [D],
    /// How many came before these that are not kept any more.
    pub passed: u64,
}

/// How far an audit was looked at.
#[derive(Clone, Copy, Debug, PartialEq, Eq)]
pub struct Mark {
    /// How many there were when it was looked at last.
    pub seen: u64,
}

impl Mark {
    /// It was not looked at yet.
    pub const NEW: Mark = Mark { seen: 0 };

    /// What is new of an audit that keeps these, and dropped so many before them. It was looked at then.
    pub fn look<'a, D>(&mut self, dropped: u64, kept: &'a [D]) -> Fresh<'a, D>
        ensures fresh { (before : List D) → length before ≡ dropped → IsNew before kept.now self.old.seen result.came.now result.passed }
        ensures seen { self.new.seen ≡ min (dropped + length kept.now) (2 ^ 64 - 1) }
    {
        let seen = self.seen;
        self.seen = dropped.saturating_add(kept.len() as u64);
        let skip = seen.saturating_sub(dropped).min(kept.len() as u64);
        Fresh {
            came: &kept[skip as usize..],
            passed: dropped.saturating_sub(seen),
        }
    }
}
