ghost use Rattle.policy_text.specs.Names.{number_of};
ghost use Rattle.std.specs.Prelude.{◌≡◌, ◌++◌, ◌∷◌, [], OnOk, OnErr};

use byte_strings::Text;
use std::alloc::{AllocError, Global};
use std::marker::Model;

/// The names of principals with their numbers. `nobody` is 0, whatever else is given.
#[derive(Debug, Drop)]
pub struct Names {
    given: Vec<(Text, u32)>,
}

impl Model for Names {
    ghost use Rattle.std.specs.Prelude.{List, ℕ};

    ghost Value = { List (List ℕ × ℕ) };

    ghost view = { λ names. names.given.items };
}

impl Names {
    /// `nobody` alone. It takes no memory.
    pub fn new(alloc: Global) -> Names
        ensures { result ≡ [] }
    {
        Names {
            given: Vec::new(alloc),
        }
    }

    /// Gives `name` a number. A name that is given already keeps its number.
    pub fn add(&mut self, name: Text, number: u32) -> Result<(), AllocError>
        ensures ok { OnOk result (self.new ≡ self.old ++ (name, number) ∷ []) }
        ensures err { OnErr result (self.new ≡ self.old) }
    {
        self.given.push((name, number))?;
        Ok(())
    }

    /// The number of a name.
    #[tactic(auto, unfolding(crate::specs::Names::number_of))]
    pub fn number_of(&self, name: &str) -> Option<u32>
        ensures { result ≡ number_of name.now self.now }
    {
        if name == "nobody" {
            return Some(0);
        }
        for (given, number) in &self.given {
            if name == given.as_str() {
                return Some(*number);
            }
        }
        None
    }
}
