// The fields of a schema.
use crate::Name;

/// The number of a field: `id` has 0, and the others are numbered from 1 in the byte order of their
/// names.
#[derive(Clone, Copy, Debug, PartialEq, Eq, PartialOrd, Ord)]
pub struct FieldId(pub u16);

/// What values a field has: at most one text (`string`), texts (`strings`), at most one integer of 64
/// bits signed (`plong`), such integers (`plongs`), at most one date (`pdate`), or dates (`pdates`). Dates
/// are texts: the canonical ones.
#[derive(Clone, Copy, Debug, PartialEq, Eq)]
pub enum FieldType {
    Str,
    Strs,
    Long,
    Longs,
    Date,
    Dates,
}

/// A field of a schema: its name and its type.
#[derive(Debug, Drop)]
pub(crate) struct Field {
    pub(crate) name: Name,
    pub(crate) kind: FieldType,
}
