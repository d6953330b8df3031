//! Collections that an event edits and may roll back. The map by LSA key undoes its edits since the
//! last commit without allocating, in time proportional to their number. The list in pages is
//! shared by its copies: a copy takes no room for its items, and an edit only that of one page.
#![tactic(auto)]

mod entries_in_order;
mod keys_in_order;
mod map;
mod page;
mod pages;
mod places;
mod route_answers;
mod slot;

pub use entries_in_order::EntriesInOrder;
pub use keys_in_order::KeysInOrder;
pub use map::{ChangeTest, KeyTest, KeyedMap, TryCopy};
pub use pages::Pages;
pub use route_answers::{KeptAnswers, RouteAnswers};
pub use slot::{Edit, KeySlot};
