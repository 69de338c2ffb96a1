//! Names in snake case, lower and upper.

use protobuf_parse_index::{lower_snake_case, upper_snake_case};
use std::test::Fail;

/// Names, each in lower and in upper snake case.
const NAMES: &[(&str, &str, &str)] = &[
    ("HTTPStatus", "http_status", "HTTP_STATUS"),
    ("HttpStatus", "http_status", "HTTP_STATUS"),
    ("httpStatus", "http_status", "HTTP_STATUS"),
    (
        "getHTTPResponseCode",
        "get_http_response_code",
        "GET_HTTP_RESPONSE_CODE",
    ),
    ("Foo2Bar", "foo2_bar", "FOO2_BAR"),
    ("Foo2bar", "foo2bar", "FOO2BAR"),
    ("X2Y", "x2y", "X2Y"),
    ("HTTP2Server", "http2_server", "HTTP2_SERVER"),
    ("already_snake", "already_snake", "ALREADY_SNAKE"),
    ("ALREADY_UPPER", "already_upper", "ALREADY_UPPER"),
    ("Foo_Bar", "foo_bar", "FOO_BAR"),
    ("X", "x", "X"),
    ("XY", "xy", "XY"),
    ("XYz", "x_yz", "X_YZ"),
    ("xY", "x_y", "X_Y"),
    ("x", "x", "X"),
    ("_lead", "_lead", "_LEAD"),
    ("_Lead", "_lead", "_LEAD"),
    ("two__in", "two__in", "TWO__IN"),
    ("trail_", "trail_", "TRAIL_"),
    ("", "", ""),
    ("größeÄ", "größeÄ", "GRößEÄ"),
];

#[test]
fn spells_words_of_capitals(rt: HostRuntime) -> Result<(), Fail> {
    let alloc = rt.alloc();
    for (name, lower, upper) in NAMES {
        assert_eq!(rt; lower_snake_case(alloc, name)?.as_str(), *lower);
        assert_eq!(rt; upper_snake_case(alloc, name)?.as_str(), *upper);
    }
    Ok(())
}
