// The records of a checked sheet: their offsets, what they are, by kind alone, and which are faces.

#![tactic(auto)]

mod by_kind;
mod marking;
mod standing;

pub use by_kind::record_at;
pub use marking::{faces, faces_among};
pub use standing::list_offsets;
