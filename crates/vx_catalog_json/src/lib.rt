//! Reading JSON values by their forms: the items of an array, the members of an object, names, lists of values of one form, and entries of orders.
#![tactic(auto)]

mod lists;
mod look;
mod misread;
mod orders;

pub use lists::{NameReader, Reader, read_list, read_list_or_empty, read_some};
pub use look::{
    get_items, get_member, get_some_items, get_text, has_only, read_flag, read_name, test_members,
};
pub use misread::Misread;
pub use orders::{OrderReader, OrderText};
