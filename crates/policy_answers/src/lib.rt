//! What the program answers to a question about the policy in a file: the text that it prints, and whether all is well.
//!
//! Each call takes the documents that the files are, each parsed once, and the names of principals. What they find is
//! `policy_query`'s, `policy_tools`', `policy_lint`'s, `policy_table`'s and `policy_diff`'s.
#![tactic(auto)]

mod answer;
mod fault;
mod json;
mod listing;
mod questions;
mod refusing;
mod trials;

pub use answer::Answer;
pub use fault::{AskFault, RowCount};
pub use json::{
    check_json, compare_json, decide_json, explain_json, find_faults_json, show_json,
    table_of_all_json, table_of_one_json, try_cases_json,
};
pub use listing::{rows_text, show, table_of_all, table_of_one};
pub use policy_table::{Place, Table};
pub use questions::{check, decide, explain};
pub use refusing::{Origin, refusal};
pub use trials::{compare, find_faults, try_cases};
