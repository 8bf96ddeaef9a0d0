//! Where the alternatives of a check's body stand in the text of a specification.
#![tactic(auto)]

mod branch_laws;
mod definitions;
mod laws;
mod leads;
mod placing;
mod reading;
mod units;
mod zoning;

pub use branch_laws::alternatives_stay_as_many;
pub use laws::units_stand_in_their_order;
pub use placing::place;
pub use zoning::zones;
