//! Typed readers of JSON values, each with its exact refusal.
#![tactic(auto)]

mod error;
mod fields;
mod indexes;
mod parts;
mod reading;

pub use error::{ListError, LoadError, ReadJsonError, Shape};
pub use fields::{entries, few_entries, part, string, two_entries, whole_number};
pub use indexes::index_list;
pub use parts::{array, member, number, text};
pub use reading::read;
pub use serde_json::Value;
