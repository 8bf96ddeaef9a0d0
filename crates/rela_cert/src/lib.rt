//! Certificates of compliance: a text that lists rows with words from which anyone can compute that
//! their checks are met, how it is written, and its audit, which searches for nothing.
#![tactic(auto)]

mod alike_rows;
mod answer;
mod auditing;
mod by_symbols;
mod certifying;
mod check_parts;
mod check_relations;
mod checking;
mod complement_count;
mod finding;
mod flow_images;
mod found_rows;
mod images;
mod inputs;
mod judgement;
mod kept_checks;
mod laws;
mod lettered;
mod listed_row;
mod planning;
mod renamed_blocks;
mod repeated;
mod row;
mod row_audit;
mod row_certificate;
mod row_forms;
mod row_words;
mod same_blocks;
mod scene_laws;
mod shared_judgement;
mod shared_rows;
mod sides;
mod words;

pub use answer::Audit;
pub use auditing::audit;
pub use certifying::certify;
pub use laws::audit_accepts_what_certify_writes;
pub use row_audit::MAX_STATES;
