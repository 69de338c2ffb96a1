//! Which numbers fields and extensions may have.

ghost use Rattle.std.specs.Prelude.{◌≡◌, option_map};
ghost use Rattle.protobuf_parse_rules.specs.Findings.{finding_view};
ghost use Rattle.protobuf_parse_rules.specs.Limits.{limit};

use crate::finding::{Finding, found, found_if};
use crate::rule::Rule;

/// What is wrong with the number itself.
pub fn limit<'a>(number: i32, extension: bool) -> Option<Finding<'a>>
    ensures { option_map finding_view result ≡ limit extension number }
{
    if number < 1 {
        return found(Rule::NumberNotPositive { number });
    }
    if !extension && 536870911 < number {
        return found(Rule::NumberTooLarge { number });
    }
    found_if(
        !(number < 19000) && number < 20000,
        Rule::NumberOfImplementation { number },
    )
}
