//! Numbers as the defaults of fields write them.

ghost use Rattle.std.specs.Prelude.{◌≡◌, IsTrue, nat_lt};
ghost use Rattle.std.specs.Char.{is_ascii_digit};
ghost use Rattle.std.specs.Float.Parse.{is_float_text};
ghost use Rattle.std.specs.List.{list_all};
ghost use Rattle.std.specs.Str.Parse.{digits_value, starts_with_minus};
ghost use Rattle.protobuf_parse_rules.specs.NumberTexts as spec;

/// The text without a minus before it.
pub fn without_minus(text: &str) -> &str
    ensures { result.now ≡ spec.without_minus text.now }
{
    match text.strip_prefix('-') {
        Some(rest) => rest,
        None => text,
    }
}

/// Whether the text begins with a minus.
pub fn has_minus(text: &str) -> bool
    ensures { result ≡ starts_with_minus text.now }
{
    text.starts_with('-')
}

/// Whether the text is digits, one or more.
pub fn is_digits(text: &str) -> bool
    ensures { result ≡ spec.is_digits text.now }
{
    text.len() > 0 && are_digits(text.as_bytes())
}

fn are_digits(bytes: &[u8]) -> bool
    ensures { result ≡ list_all is_ascii_digit bytes.now }
{
    bytes.iter().all(|byte| byte.is_ascii_digit())
}

/// Whether the number that the digits write is above that one.
pub fn exceeds(digits: &str, most: u64) -> bool
    requires { IsTrue (spec.is_digits digits.now) }
    ensures { result ≡ nat_lt most (digits_value 10 digits.now) }
{
    match digits.parse::<u64>() {
        Ok(number) => number > most,
        Err(_) => true,
    }
}

/// Whether the text is a number without a sign, `inf` or `nan`.
pub fn is_unsigned_number(text: &str) -> bool
    ensures { result ≡ spec.is_unsigned_number text.now }
{
    text == "inf" || text == "nan" || begins_as_number(text.as_bytes()) && is_float_text(text)
}

fn begins_as_number(bytes: &[u8]) -> bool
    ensures { result ≡ spec.begins_as_number bytes.now }
{
    match bytes {
        [first, ..] => first.is_ascii_digit() || *first == b'.',
        [] => false,
    }
}

fn is_float_text(text: &str) -> bool
    ensures { result ≡ is_float_text text.now }
{
    text.parse::<f64>().is_ok()
}
