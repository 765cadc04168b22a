//! What can be asked of a policy before it is put in force: which rule has which number, why it decides as it does,
//! whether it keeps the answers that are wanted, and when one pattern covers all that another does, which
//! is found by the pieces of their texts.
#![tactic(auto)]

mod alike;
mod case_faults;
mod case_lines;
mod case_lists;
mod case_words;
mod cases;
mod columns;
mod directory;
mod explaining;
mod nearness;
mod numbers;
mod patterns;
mod reasons;
mod sharing;
mod showing;
mod wider;
mod words;
mod written_policy;

pub use case_faults::{CaseCause, CasePlace};
pub use case_lines::{CasesFault, cases_in};
pub use cases::{By, Case, Failure, Report};
pub use columns::{Line, in_columns};
pub use directory::{Directory, NamesFault};
pub use explaining::{ChannelMiss, Explanation, Miss, channel_miss, explain, miss_of};
pub use nearness::nearest;
pub use patterns::{Relation, is_wider, patterns_pass};
pub use reasons::{Reason, explained, name_at, reasons_of};
pub use sharing::{is_over, may_meet};
pub use showing::show;
pub use wider::{first_piece, key_of, pairs_in, value_wider};
pub use words::{acts_text, moments_text, principals_text, streams_text, word_of};
pub use written_policy::WrittenPolicy;
