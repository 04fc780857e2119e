//! Values, names, schemas and the two ways in which a call can refuse.
#![tactic(auto)]

mod error;
mod field;
mod integer;
pub mod json;
mod name;
mod name_bytes;
mod schema;
mod statistic;
mod value;

pub use error::{Refusal, WantMemory};
pub use field::{FieldId, FieldType};
pub use integer::long_of;
pub use name::Name;
pub use name_bytes::{are_name_bytes, is_name_byte};
pub use schema::{Schema, SchemaFault};
pub use statistic::{Stat, StatKind};
pub use value::Val;
