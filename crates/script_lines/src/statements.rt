ghost use Rattle.script_lines.specs.Pieces.{pieces_behind};
ghost use Rattle.std.specs.Prelude.{◌≡◌, ◌+◌, ◌^◌, ◌<◌, ◌≤◌, [], ◌∷◌, IfOk, IfSome, IfNone, OnErr, false, true, length, option_copied};

use crate::line::{Line, plain_text, read_line};
use crate::pieces::first_of_bytes;
use byte_strings::Text;
use driver_core::Peer;
use driver_world::{Actor, Reading};
use std::alloc::{AllocError, Global};

/// The most bytes that a script may have.
pub const LIMIT: usize = 16_777_216;

/// What a statement says.
#[derive(Debug, Drop)]
pub enum Said {
    /// Rules of the policies may name this principal.
    Principal { name: Text, number: u32 },
    /// Who sends from this address is this principal.
    Peer(Peer),
    /// The driver has this setting, if the key is one and the value is in its range.
    Set { key: Text, value: Text },
    /// This text is a policy, each of its lines with its line feed.
    Policy(Text),
    /// A step of the run.
    Does(Reading),
    /// The last decisions of this actor are shown.
    Audit(Actor),
    /// It is no statement, or none at this place. No other follows it.
    Bad,
}

/// A statement of a script, with the number of the line that it begins on, counted from 1. A line of a policy that is
/// not ASCII is bad by itself.
#[derive(Debug, Drop)]
pub struct Statement {
    pub line: u64,
    pub said: Said,
}

/// The statements of a script, one after another.
#[derive(Clone, Copy, Debug)]
pub struct Statements<'a> {
    rest: Option<&'a [u8]>,
    number: u64,
    opened: bool,
    ghost fits: { number + length (pieces_behind 10 (option_copied rest)) < 2 ^ 64 },
}

impl<'a> Statements<'a> {
    ghost use Rattle.script_lines.specs.Left.{left, left_from, place_of, GoesOn, Takes, TakesLine, lines_left};
    ghost use Rattle.script_lines.specs.Statements.{Within, bad, before, behind, said_at, statements_of};

    /// The statements of the whole script.
    #[tactic(auto, unfolding(crate::specs::Statements::statements_of))]
    pub fn new(script: &'a [u8]) -> Statements<'a>
        requires { length script.now ≤ LIMIT }
        ensures { left result ≡ statements_of script.now }
    {
        Statements {
            rest: Some(script),
            number: 1,
            opened: false,
        }
    }

    /// The next line with its number.
    fn take_line(&mut self) -> Option<(u64, &'a [u8])>
        ensures some { IfSome result (λ line. TakesLine self.old self.new line.0 line.1.now) }
        ensures none { IfNone result (lines_left self.old ≡ []) }
        ensures end { IfNone result (self.new ≡ self.old) }
    {
        let (line, rest) = first_of_bytes(self.rest?, b'\n');
        let number = self.number;
        *self = Statements {
            rest,
            number: number + 1,
            opened: self.opened,
        };
        Some((number, line))
    }

    /// The line is bad, and nothing more is read.
    fn refuse(&mut self, number: u64) -> Statement
        ensures { result ∷ left self.new ≡ bad number }
    {
        *self = Statements {
            rest: None,
            number: self.number,
            opened: self.opened,
        };
        Statement {
            line: number,
            said: Said::Bad,
        }
    }

    /// The policy that begins after the line of that number.
    fn take_policy(&mut self, alloc: Global, start: u64) -> Result<Statement, AllocError>
        ensures { IfOk result (λ statement. left_from (Within start []) self.old ≡ statement ∷ left self.new) }
    {
        let mut text = String::new(alloc);
        'lines: while let Some((number, line)) = self.take_line() {
            let Some(line) = plain_text(line) else {
                return Ok(self.refuse(number));
            };
            if line == "." {
                self.opened = true;
                return Ok(Statement {
                    line: start,
                    said: Said::Policy(Text::from(text)),
                });
            }
            text.push_str(line)?;
            text.push_str("\n")?;
        }
        Ok(self.refuse(start))
    }

    /// What a line before the first policy says, where it says something.
    fn before(
        &mut self,
        alloc: Global,
        number: u64,
        line: Line,
    ) -> Result<Option<Statement>, AllocError>
        requires { self.old.opened ≡ false }
        ensures said { IfOk result (λ statement. GoesOn (before number line (λ next. left_from next self.old)) (left self.new) statement) }
        ensures nothing { IfOk result (λ statement. IfNone statement (self.new ≡ self.old)) }
    {
        match line {
            Line::Skipped => Ok(None),
            Line::Principal {
                name,
                number: principal,
            } => Ok(Some(Statement {
                line: number,
                said: Said::Principal {
                    name,
                    number: principal,
                },
            })),
            Line::Peer(peer) => Ok(Some(Statement {
                line: number,
                said: Said::Peer(peer),
            })),
            Line::Set { key, value } => Ok(Some(Statement {
                line: number,
                said: Said::Set { key, value },
            })),
            Line::Policy => Ok(Some(self.take_policy(alloc, number)?)),
            Line::Does(_) => Ok(Some(self.refuse(number))),
            Line::Audit(_) => Ok(Some(self.refuse(number))),
            Line::Bad => Ok(Some(self.refuse(number))),
        }
    }

    /// What a line after a policy says, where it says something.
    fn behind(
        &mut self,
        alloc: Global,
        number: u64,
        line: Line,
    ) -> Result<Option<Statement>, AllocError>
        requires { self.old.opened ≡ true }
        ensures said { IfOk result (λ statement. GoesOn (behind number line (λ next. left_from next self.old)) (left self.new) statement) }
        ensures nothing { IfOk result (λ statement. IfNone statement (self.new ≡ self.old)) }
    {
        match line {
            Line::Skipped => Ok(None),
            Line::Does(reading) => Ok(Some(Statement {
                line: number,
                said: Said::Does(reading),
            })),
            Line::Audit(actor) => Ok(Some(Statement {
                line: number,
                said: Said::Audit(actor),
            })),
            Line::Policy => Ok(Some(self.take_policy(alloc, number)?)),
            Line::Principal { .. } => Ok(Some(self.refuse(number))),
            Line::Peer(_) => Ok(Some(self.refuse(number))),
            Line::Set { .. } => Ok(Some(self.refuse(number))),
            Line::Bad => Ok(Some(self.refuse(number))),
        }
    }

    /// What the line of that number says, where it says something.
    fn say(
        &mut self,
        alloc: Global,
        number: u64,
        line: &[u8],
    ) -> Result<Option<Statement>, AllocError>
        ensures said { IfOk result (λ statement. GoesOn (said_at (place_of self.old.opened) number line.now (λ next. left_from next self.old)) (left self.new) statement) }
        ensures nothing { IfOk result (λ statement. IfNone statement (self.new ≡ self.old)) }
    {
        let line = read_line(alloc, line)?;
        if self.opened {
            return self.behind(alloc, number, line);
        }
        self.before(alloc, number, line)
    }

    /// The next statement; `None` where the script ends.
    ///
    /// # Errors
    /// No statement is taken where there is no memory for it.
    pub fn next(&mut self, alloc: Global) -> Result<Option<Statement>, AllocError>
        ensures taken { IfOk result (λ statement. Takes (left self.old) (left self.new) statement) }
        ensures err { OnErr result (self.new ≡ self.old) }
    {
        let mut others = *self;
        'lines: while let Some((number, line)) = others.take_line() {
            if let Some(statement) = others.say(alloc, number, line)? {
                *self = others;
                return Ok(Some(statement));
            }
        }
        *self = others;
        Ok(None)
    }
}
