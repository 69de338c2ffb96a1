//! Whole answers, by bytes that are written out.

use protobuf_parse_records::{Payload, Record, RecordsError, Span, records, records_in};
use std::alloc::{AllocError, Global};
use std::test::Fail;

/// A record a line, `number payload @ whole`; bytes with the offset of the first one, as `2: 7 8`.
/// Or the error.
fn told(alloc: Global, bytes: &[u8]) -> Result<String, AllocError> {
    let mut text = String::new(alloc);
    tell(alloc, &mut text, records(alloc, bytes))?;
    Ok(text)
}

/// The same of what stands in the delimited payloads and in the groups of a message.
fn told_inside(alloc: Global, bytes: &[u8]) -> Result<String, AllocError> {
    let mut text = String::new(alloc);
    if let Ok(found) = records(alloc, bytes) {
        for record in &found {
            match record.payload {
                Payload::Delimited(span) | Payload::Group(span) => {
                    tell(alloc, &mut text, records_in(alloc, span))?;
                }
                _ => {}
            }
        }
    }
    Ok(text)
}

fn tell(
    alloc: Global,
    text: &mut String,
    answer: Result<Vec<Record<'_>>, RecordsError>,
) -> Result<(), AllocError> {
    match answer {
        Ok(found) => tell_records(alloc, text, &found),
        Err(error) => text.push_str(&format!(in alloc; "{error}")?),
    }
}

fn tell_records(
    alloc: Global,
    text: &mut String,
    records: &[Record<'_>],
) -> Result<(), AllocError> {
    for record in records {
        let number = record.number;
        text.push_str(&format!(in alloc; "{number} ")?)?;
        tell_payload(alloc, text, record.payload)?;
        text.push_str(" @ ")?;
        tell_span(alloc, text, record.whole)?;
        text.push('\n')?;
    }
    Ok(())
}

fn tell_payload(alloc: Global, text: &mut String, payload: Payload<'_>) -> Result<(), AllocError> {
    match payload {
        Payload::Varint(number) => text.push_str(&format!(in alloc; "varint {number}")?),
        Payload::Fixed64(number) => text.push_str(&format!(in alloc; "fixed64 {number}")?),
        Payload::Fixed32(number) => text.push_str(&format!(in alloc; "fixed32 {number}")?),
        Payload::Delimited(span) => {
            text.push_str("delimited ")?;
            tell_span(alloc, text, span)
        }
        Payload::Group(span) => {
            text.push_str("group ")?;
            tell_span(alloc, text, span)
        }
    }
}

fn tell_span(alloc: Global, text: &mut String, span: Span<'_>) -> Result<(), AllocError> {
    let start = span.start;
    text.push_str(&format!(in alloc; "{start}:")?)?;
    for byte in span.bytes {
        text.push_str(&format!(in alloc; " {byte}")?)?;
    }
    Ok(())
}

/// So many groups with the number 1 inside one another.
fn nested(alloc: Global, groups: usize) -> Result<Vec<u8>, AllocError> {
    let mut bytes = Vec::new(alloc);
    for _ in 0..groups {
        bytes.push(0x0b)?;
    }
    for _ in 0..groups {
        bytes.push(0x0c)?;
    }
    Ok(bytes)
}

#[test]
fn tells_each_wire_type(rt: HostRuntime) -> Result<(), Fail> {
    let rows: [(&[u8], &str); 9] = [
        (&[], ""),
        (&[0x08, 0x96, 0x01], "1 varint 150 @ 0: 8 150 1\n"),
        (
            &[0x11, 1, 2, 0, 0, 0, 0, 0, 0],
            "2 fixed64 513 @ 0: 17 1 2 0 0 0 0 0 0\n",
        ),
        (&[0x1a, 2, 7, 8], "3 delimited 2: 7 8 @ 0: 26 2 7 8\n"),
        (&[0x1a, 0], "3 delimited 2: @ 0: 26 0\n"),
        (&[0x25, 1, 0, 0, 1], "4 fixed32 16777217 @ 0: 37 1 0 0 1\n"),
        (&[0x2b, 0x08, 5, 0x2c], "5 group 1: 8 5 @ 0: 43 8 5 44\n"),
        // The longest varints, of a tag and of a number.
        (
            &[0xf8, 0xff, 0xff, 0xff, 0x0f, 0],
            "536870911 varint 0 @ 0: 248 255 255 255 15 0\n",
        ),
        (
            &[
                0x08, 0xff, 0xff, 0xff, 0xff, 0xff, 0xff, 0xff, 0xff, 0xff, 0x01,
            ],
            "1 varint 18446744073709551615 @ 0: 8 255 255 255 255 255 255 255 255 255 1\n",
        ),
    ];
    for (bytes, want) in rows {
        assert_eq!(rt; told(rt.alloc(), bytes)?.as_str(), want);
    }
    Ok(())
}

#[test]
fn tells_records_in_order_and_inside(rt: HostRuntime) -> Result<(), Fail> {
    let alloc = rt.alloc();
    // A group 2 with a varint, a group 3 that is empty and bytes in it, and a varint behind it.
    let bytes = [0x13, 0x08, 1, 0x1b, 0x1c, 0x22, 1, 0x14, 0x14, 0x08, 2];
    assert_eq!(rt;
        told(alloc, &bytes)?.as_str(),
        "2 group 1: 8 1 27 28 34 1 20 @ 0: 19 8 1 27 28 34 1 20 20\n1 varint 2 @ 9: 8 2\n"
    );
    assert_eq!(rt;
        told_inside(alloc, &bytes)?.as_str(),
        "1 varint 1 @ 1: 8 1\n3 group 4: @ 3: 27 28\n4 delimited 7: 20 @ 5: 34 1 20\n"
    );
    // A message in a message, and one whose bytes end inside a record.
    assert_eq!(rt;
        told_inside(alloc, &[0x0a, 2, 0x08, 7])?.as_str(),
        "1 varint 7 @ 2: 8 7\n"
    );
    assert_eq!(rt;
        told_inside(alloc, &[0x08, 1, 0x0a, 2, 0x08, 0x80])?.as_str(),
        "byte 5: the bytes end inside a record"
    );
    Ok(())
}

#[test]
fn tells_faults_with_their_bytes(rt: HostRuntime) -> Result<(), Fail> {
    let truncated = "the bytes end inside a record";
    let large = "a varint has more than 64 bits";
    let number = "no field has this number";
    let wire_type = "there is no such wire type";
    let group_end = "a group ends that is not open";
    let rows: [(&[u8], usize, &str); 18] = [
        (&[0x88], 0, truncated),
        (&[0x08, 0x80], 1, truncated),
        (&[0x08, 1, 0x11, 1, 2, 3, 4, 5, 6, 7], 3, truncated),
        (&[0x25, 1, 2, 3], 1, truncated),
        (&[0x1a, 3, 1, 2], 2, truncated),
        (&[0x1a], 1, truncated),
        (&[0x0b, 0x10, 1], 3, truncated),
        (
            &[
                0x08, 0xff, 0xff, 0xff, 0xff, 0xff, 0xff, 0xff, 0xff, 0xff, 0x02,
            ],
            1,
            large,
        ),
        (
            &[
                0x08, 0x80, 0x80, 0x80, 0x80, 0x80, 0x80, 0x80, 0x80, 0x80, 0x80, 0,
            ],
            1,
            large,
        ),
        (&[0x08, 1, 0x00], 2, number),
        (&[0x80, 0x80, 0x80, 0x80, 0x10, 0], 0, number),
        (&[0x08, 1, 0x0e], 2, wire_type),
        (&[0x0f], 0, wire_type),
        // The end of a group that isn't open, of another one, and of an outer one.
        (&[0x08, 1, 0x0c], 2, group_end),
        (&[0x0b, 0x14], 1, group_end),
        (&[0x0b, 0x13, 0x0c], 2, group_end),
        // What is wrong inside a group comes before what is wrong behind it.
        (&[0x0b, 0x08, 1, 0x06, 0x0c, 0x07], 3, number),
        (&[0x0b, 0x08, 1, 0x0c, 0x0f], 4, wire_type),
    ];
    for (bytes, at, want) in rows {
        let want = format!(in rt.alloc(); "byte {at}: {want}")?;
        assert_eq!(rt; told(rt.alloc(), bytes)?.as_str(), want.as_str());
    }
    Ok(())
}

#[test]
fn takes_100_groups_inside_one_another(rt: HostRuntime) -> Result<(), Fail> {
    let alloc = rt.alloc();
    let bytes = nested(alloc, 100)?;
    let text = told(alloc, &bytes)?;
    let mut want = String::new(alloc);
    want.push_str("1 group 1:")?;
    for byte in &nested(alloc, 99)? {
        want.push_str(&format!(in alloc; " {byte}")?)?;
    }
    want.push_str(" @ 0:")?;
    for byte in &bytes {
        want.push_str(&format!(in alloc; " {byte}")?)?;
    }
    want.push('\n')?;
    assert_eq!(rt; text.as_str(), want.as_str());
    let text = told(alloc, &nested(alloc, 101)?)?;
    assert_eq!(rt;
        text.as_str(),
        "byte 100: more than 100 groups stand inside one another"
    );
    Ok(())
}
