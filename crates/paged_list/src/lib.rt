//! Lists that are kept in pages, each a ring: a tiered vector. An item is put in or taken out in the time of a page, and of
//! one step for each page behind it, which passes an item on to the next.
#![tactic(auto)]

mod list;
mod page;
mod plain;
mod ranges;
mod through;

pub use list::PagedList;
pub use page::PAGE;
pub use plain::Plain;
