// Faults as texts, by which no program shows them.
use super::demand;
use fc_base::{Name, SchemaFault};
use fc_docs::DocFault;
use fc_facet::QFault;
use fc_lines::LineFault;
use fc_query::{FilterFault, QueryFault};
use fc_request::RequestFault;
use fc_script::ScriptFault;
use std::alloc::Global;
use std::fmt::Display;
use std::test::Fail;

const REQUESTS: &[(QFault, &str)] = &[
    (QFault::NotAnObject, "not-an-object"),
    (QFault::UnknownKey, "unknown-key"),
    (QFault::QuerySyntax, "query-syntax"),
    (QFault::MixedOperators, "mixed-operators"),
    (QFault::UnknownField, "unknown-field"),
    (QFault::BadValue, "bad-value"),
    (QFault::BadCommand, "bad-command"),
    (QFault::UnknownType, "unknown-type"),
    (QFault::MissingParameter, "missing-parameter"),
    (QFault::BadParameter, "bad-parameter"),
    (QFault::UnknownSort, "unknown-sort"),
    (QFault::BadStatistic, "bad-statistic"),
    (QFault::WrongFieldType, "wrong-field-type"),
    (QFault::ReservedName, "reserved-name"),
    (QFault::NestedExclude, "nested-exclude"),
    (QFault::TooLarge, "too-large"),
];

const LINES: &[(LineFault, &str)] = &[
    (LineFault::NotJson, "not-json"),
    (LineFault::NoSchema, "no-schema"),
    (LineFault::UnknownLine, "unknown-line"),
    (LineFault::BadSchema, "bad-schema"),
    (LineFault::BadShard, "bad-shard"),
    (LineFault::FieldTotal, "field-total"),
    (LineFault::TooManyDocuments, "too-many-documents"),
    (LineFault::TooManySessions, "too-many-sessions"),
    (LineFault::LongLine, "long-line"),
    (LineFault::TooLong, "too-long"),
    (LineFault::TooManyCommits, "too-many-commits"),
    (LineFault::TooManySyncs, "too-many-syncs"),
];

const DOCUMENTS: &[(DocFault, &str)] = &[
    (DocFault::UnknownField, "unknown-field"),
    (DocFault::WrongType, "wrong-type"),
    (DocFault::TooManyValues, "too-many-values"),
    (DocFault::NoId, "no-id"),
    (DocFault::LongTerm, "long-term"),
    (DocFault::DeepChildren, "deep-children"),
];

const QUERIES: &[(QueryFault, &str)] = &[
    (QueryFault::Syntax, "query-syntax"),
    (QueryFault::MixedOperators, "mixed-operators"),
    (QueryFault::UnknownField, "unknown-field"),
    (QueryFault::BadValue, "bad-value"),
];

fn compare<F: Display>(alloc: Global, fault: &F, wanted: &str) -> Result<(), Fail> {
    let found = format!(in alloc; "{fault}")?;
    demand(&found, wanted)
}

#[test]
fn faults_are_shown(rt: HostRuntime) -> Result<(), Fail> {
    let alloc = rt.alloc();
    for (fault, text) in REQUESTS {
        compare(alloc, fault, text)?;
        let at = vec![in alloc; Name::new(alloc, "outer")?]?;
        compare(alloc, &RequestFault { at, fault: *fault }, text)?;
    }
    for (fault, text) in QUERIES {
        compare(alloc, fault, text)?;
        compare(alloc, &FilterFault::Query(*fault), text)?;
    }
    compare(alloc, &FilterFault::Shape, "bad-parameter")?;
    for (fault, text) in LINES {
        compare(alloc, fault, text)?;
    }
    for (fault, text) in DOCUMENTS {
        compare(alloc, fault, text)?;
    }
    let fault = ScriptFault {
        line: 7,
        fault: LineFault::BadDocument(DocFault::NoId),
    };
    compare(alloc, &fault, "line 7: bad-document: no-id")?;
    compare(alloc, &SchemaFault, "bad-schema")
}
