//! The pictures that are at hand while pictures are decoded: the last two anchors, and the one that is decoded next.
//!
//! Its promise: a store of type `RefStore` stands for a list of committed pictures. It lends the references that the
//! next picture, or the one committed last, has behind these, and each commit answers what is shown next in display
//! order. Three pictures change places by swapping: nothing is copied, and no memory is taken behind the start.
//!
//! The definitions stand in `specs/`: `Stored` (the list that a store stands for), `Answers` (what is shown when a
//! picture is committed) and `Lending` (how the picture that is lent comes back). References are those of
//! `mv_planes/specs/References`, display order is that of `mv_terms/specs/Order`.
#![tactic(auto)]

mod laws;
mod store;

pub use laws::{answers_law, lent_law};
pub use store::{Held, Lent, RefStore, Shown};
