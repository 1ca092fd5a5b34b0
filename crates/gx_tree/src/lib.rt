//! Trees of slot pages, which hold a list of items.
#![tactic(auto)]

mod changing;
mod children;
mod choosing;
mod create;
mod drops;
mod fetching;
mod gathering;
mod items;
mod laws;
mod orders;
mod raising;
mod relinking;
mod rewriting;
mod seeking;
mod splitting;
mod walk;
mod writing;

pub use choosing::{choose, key_at};
pub use create::{create_leaf, create_tree};
pub use drops::drop_tree;
pub use fetching::{fetch_level, fetch_top};
pub use laws::tree_stays;
pub use orders::{Change, Edit, Seek};
pub use raising::change_tree;
pub use rewriting::rewrite_leaf;
pub use seeking::{LeafPage, find_leaf};
pub use walk::{TreePages, survey};
