// What is counted over the documents of a script.
mod documents;
mod room;

pub(crate) use documents::DocumentCounts;
