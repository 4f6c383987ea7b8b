#![tactic(auto)]

//! Lists that contracts see as their items, whatever their capacity, and the meaning of "the list of everything wanted,
//! in order".

mod chunked;
mod copy;
mod cut;
mod list;
mod lists;
mod room;

pub use chunked::ChunkedList;
pub use copy::{DeepCopy, copy_each};
pub use cut::{part_at, start_at, start_of};
pub use list::List;
pub use lists::in_one_list;
pub use room::room_for_half;
