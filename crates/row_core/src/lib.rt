#![tactic(auto)]

//! Names, values, schemas and rows, and how they are read from bytes.

mod draft;
mod failure;
mod fields;
mod func;
mod name;
mod number;
mod reading;
mod row;
mod schema;
mod text;
mod value;
mod value_ref;

pub use draft::Draft;
pub use failure::Failure;
pub use fields::Fields;
pub use func::Func;
pub use list_core::{DeepCopy, List, copy_each};
pub use name::{BadName, Name};
pub use number::{BadNumber, read_number};
pub use period_core::NoMemory;
pub use reading::{Field, RowRefused, read_period};
pub use row::{Row, RowList, RowOrder};
pub use schema::{COLUMN_LIMIT, Column, KeyRefused, Schema, SchemaRefused};
pub use text::{Text, TextRefused};
pub use value::{Kind, Value, ValueRefused, Values};
pub use value_ref::ValueRef;
