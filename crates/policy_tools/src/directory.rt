ghost use Rattle.door_names.specs.Names.{is_name};
ghost use Rattle.policy_query.specs.Deciding.{principals, principals_to};
ghost use Rattle.policy_text.specs.Names.{number_of};
ghost use Rattle.policy_tools.specs.CaseLines.{is_blank};
ghost use Rattle.policy_tools.specs.Directory.{AreNames, first_of, name_of};
ghost use Rattle.std.specs.Prelude.{◌≡◌, ◌++◌, ◌∷◌, [], IfOk, IfSome, option_copied, true};

use crate::wider::begins_with;
use byte_strings::Text;
use door_names::is_name;
use plain_words::plain;
use policy_text::Names;
use std::alloc::{AllocError, Global};
use std::marker::Model;
use std::str;

/// The names of principals, by which policies and questions speak of them, and by which answers do.
#[derive(Debug, Drop)]
pub struct Directory {
    given: Vec<(Text, u32)>,
    names: Names,
}

impl Model for Directory {
    ghost use Rattle.policy_text.specs.Names.{Known};
    ghost use Rattle.std.specs.Prelude.{◌≡◌};

    ghost Value = { Known };

    ghost view = { λ directory. directory.names };

    ghost invariant = { λ directory. directory.given.items ≡ directory.names };
}

/// Why a file gives no names.
#[derive(Drop)]
pub enum NamesFault {
    /// This line, counted from 1, is none of `principal NAME NUMBER`, of a comment, and of nothing; or its name was given
    /// before.
    BadLine(u32),
    /// The name of this line could be no file of that name in a folder: this one, with what is no printable ASCII written by
    /// its code point.
    BadName(u32, Text),
    /// The file is not UTF-8.
    NotText,
    /// There is no memory for the names.
    NoMemory,
}

impl From<AllocError> for NamesFault {
    fn from(_error: AllocError) -> NamesFault {
        NamesFault::NoMemory
    }
}

/// The name and the number of a line `principal NAME NUMBER`.
fn named(line: &str) -> Option<(&str, u32)> {
    let rest = line.strip_prefix("principal ")?;
    let (name, number) = rest.split_once(' ')?;
    if name.is_empty() || name == "*" || !is_decimal(number) {
        return None;
    }
    match number.parse::<u32>() {
        Ok(number) => Some((name, number)),
        Err(_) => None,
    }
}

/// Whether the text is one or more digits.
fn is_decimal(text: &str) -> bool {
    !text.is_empty() && text.bytes().all(|byte| byte >= b'0' && byte <= b'9')
}

/// Whether the line says nothing: it is empty, or a comment.
pub(crate) fn is_blank(line: &str) -> bool
    ensures { result ≡ is_blank line.now }
{
    line.is_empty() || begins_with(line, "#")
}

impl Directory {
    /// `nobody` and `p1` to `p63`.
    #[tactic(auto, unfolding(policy_query::specs::Deciding::principals))]
    pub fn usual(alloc: Global) -> Result<Directory, AllocError>
        ensures { IfOk result (λ directory. directory ≡ principals) }
    {
        let mut directory = Directory::new(alloc);
        let mut count = 0;
        'names: while count < 63 {
            count += 1;
            let name = Text::from(format!(in alloc; "p{count}")?);
            directory = directory.with(alloc, name, count)?;
        }
        Ok(directory)
    }

    /// `nobody` alone. It takes no memory.
    pub fn new(alloc: Global) -> Directory
        ensures { result ≡ [] }
    {
        Directory {
            given: Vec::new(alloc),
            names: Names::new(alloc),
        }
    }

    /// These names, and one more.
    pub fn with(self, alloc: Global, name: Text, number: u32) -> Result<Directory, AllocError>
        ensures { IfOk result (λ directory. directory ≡ self ++ (name, number) ∷ []) }
    {
        let Directory {
            mut given,
            mut names,
        } = self;
        names.add(name.copy(alloc)?, number)?;
        given.push((name, number))?;
        Ok(Directory { given, names })
    }

    /// The names of a file: lines `principal NAME NUMBER` as in a script, beside `nobody`, which is 0. Empty lines, and
    /// those that begin with `#`, say nothing.
    ///
    /// # Errors
    /// The first line that is none of these, or whose name is none of a door.
    #[tactic(auto, using(crate::proofs::DirectoryLemmas::names_with))]
    pub fn read(alloc: Global, bytes: &[u8]) -> Result<Directory, NamesFault>
        ensures { IfOk result AreNames }
    {
        let Ok(text) = str::from_utf8(bytes) else {
            return Err(NamesFault::NotText);
        };
        let mut directory = Directory::new(alloc);
        let mut number: u32 = 0;
        'lines: for line in text.lines() {
            number = number.saturating_add(1);
            if is_blank(line) {
                continue;
            }
            let Some((name, principal)) = directory.new_name(line) else {
                return Err(NamesFault::BadLine(number));
            };
            if !is_name(name) {
                return Err(NamesFault::BadName(number, plain(alloc, name)?));
            }
            directory = directory.with(alloc, Text::new(alloc, name)?, principal)?;
        }
        Ok(directory)
    }

    /// The name and the number of a line, where the name was not given before.
    fn new_name<'a>(&self, line: &'a str) -> Option<(&'a str, u32)> {
        let (name, number) = named(line)?;
        if self.number_of(name).is_some() {
            return None;
        }
        Some((name, number))
    }

    /// The names, for those who read a policy.
    pub fn names(&self) -> &Names
        ensures { result.now ≡ self.now }
    {
        &self.names
    }

    /// The names that were given, with their numbers and in their order.
    pub fn given(&self) -> &[(Text, u32)]
        ensures { result.now ≡ self.now }
    {
        self.given.as_slice()
    }

    /// The number of a name.
    pub fn number_of(&self, name: &str) -> Option<u32>
        ensures { result ≡ number_of name.now self.now }
    {
        self.names.number_of(name)
    }

    /// The first name of a number; `None` where it has none.
    pub fn name_of(&self, number: u32) -> Option<&str>
        ensures { option_copied result ≡ name_of number self.now }
    {
        if number == 0 {
            return Some("nobody");
        }
        for (name, other) in &self.given {
            if *other == number {
                return Some(name.as_str());
            }
        }
        None
    }
}
