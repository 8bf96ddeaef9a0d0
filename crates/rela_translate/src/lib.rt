//! Checks of changes, what they mean, and the terms that they are translated to, after Xu and
//! others, *Relational Network Verification*, SIGCOMM 2024.
#![tactic(auto)]

mod body;
mod checks;
mod laws;
mod translation;

pub use body::{Change, Core, Expr};
pub use checks::Check;
pub use laws::{
    changed_paths_are_in_the_zone, images_mean_the_body, no_word_offends_where_met,
    terms_mean_the_body, terms_name_no_paths,
};
pub use translation::{Relations, translate, zone_term};
