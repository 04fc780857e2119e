// Date texts, gap texts and sums.
use crate::{DateText, Gap, Unit, add_gap, canonical, read_gap};
use std::rt::HostRuntime;

fn is_text(date: Option<DateText>, text: &str) -> bool {
    match date {
        Some(date) => date.text() == text,
        None => false,
    }
}

fn is_sum(text: &str, gap: &str, sum: &str) -> bool {
    match (canonical(text), read_gap(gap)) {
        (Some(date), Some(gap)) => is_text(add_gap(&date, &gap), sum),
        _ => false,
    }
}

#[test]
fn texts(rt: HostRuntime) {
    assert!(rt;
        is_text(
            canonical("2024-02-10T00:00:00Z"),
            "2024-02-10T00:00:00.000Z"
        )
    );
    assert!(rt;
        is_text(
            canonical("2024-02-29T00:00:00.5Z"),
            "2024-02-29T00:00:00.500Z"
        )
    );
    assert!(rt;
        is_text(
            canonical("2024-04-30T23:59:59.123456789Z"),
            "2024-04-30T23:59:59.123Z"
        )
    );
    assert!(rt; canonical("2023-02-29T00:00:00Z").is_none());
    assert!(rt; canonical("2024-02-10T00:00:00.Z").is_none());
    assert!(rt; canonical("0000-01-01T00:00:00Z").is_none());
    assert!(rt; canonical("2024-02-10T00:00:00z").is_none());
}

#[test]
fn sums(rt: HostRuntime) {
    assert!(rt;
        is_sum(
            "2024-01-31T00:00:00Z",
            "+1MONTH",
            "2024-02-29T00:00:00.000Z"
        )
    );
    assert!(rt;
        is_sum(
            "2024-02-29T12:00:00.5Z",
            "+1YEARS",
            "2025-02-28T12:00:00.500Z"
        )
    );
    assert!(rt;
        is_sum(
            "1970-01-01T00:00:00Z",
            "+9999DAYS",
            "1997-05-18T00:00:00.000Z"
        )
    );
    assert!(rt;
        is_sum(
            "2000-01-01T00:00:00Z",
            "+9999HOURS",
            "2001-02-20T15:00:00.000Z"
        )
    );
    assert!(rt; read_gap("+1FORTNIGHT").is_none());
    assert!(rt; read_gap("+01DAY").is_none());
    let last = canonical("9999-12-31T23:59:59.999Z");
    let gap = Gap {
        unit: Unit::Seconds,
        number: 1,
    };
    assert!(rt;
        match last {
            Some(date) => add_gap(&date, &gap).is_none(),
            None => false
        }
    );
}
