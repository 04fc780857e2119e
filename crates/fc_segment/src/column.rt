// Columns of either kind.
use fc_column::{LongColumn, TextColumn};

/// The values of one field, position by position.
#[derive(Debug, Drop)]
pub enum Column {
    Text(TextColumn),
    Long(LongColumn),
}
