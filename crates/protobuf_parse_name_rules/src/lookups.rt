//! What full names mean among the files that are seen.

ghost use Rattle.std.specs.Prelude.{◌≡◌};
ghost use Rattle.protobuf_parse_index.specs.Lookups.{enum_named, message_named, service_named};
ghost use Rattle.protobuf_parse_name_rules.specs.InnerViews.{sight_view};
ghost use Rattle.protobuf_parse_name_rules.specs.Lookups as spec;

use crate::files::NameSight;

/// Whether the full name is that of a message or an enum.
pub fn is_type(sight: &NameSight<'_, '_>, name: &str) -> bool
    ensures { result ≡ spec.is_type (sight_view sight.now) name.now }
{
    is_message(sight, name) || is_enum(sight, name)
}

fn is_message(sight: &NameSight<'_, '_>, name: &str) -> bool
    ensures { let s = sight_view sight.now in
        result ≡ spec.is_seen s (message_named s.reached name.now) }
{
    match sight.index.message(name) {
        Some(message) => sight.paths.contains(message.file),
        None => false,
    }
}

fn is_enum(sight: &NameSight<'_, '_>, name: &str) -> bool
    ensures { let s = sight_view sight.now in
        result ≡ spec.is_seen s (enum_named s.reached name.now) }
{
    match sight.index.enumeration(name) {
        Some(each) => sight.paths.contains(each.file),
        None => false,
    }
}

fn is_service(sight: &NameSight<'_, '_>, name: &str) -> bool
    ensures { let s = sight_view sight.now in
        result ≡ spec.is_seen s (service_named s.reached name.now) }
{
    match sight.index.service(name) {
        Some(service) => sight.paths.contains(service.file),
        None => false,
    }
}

/// Whether it is that of an extension.
pub fn is_extension(sight: &NameSight<'_, '_>, name: &str) -> bool
    ensures { result ≡ spec.is_extension (sight_view sight.now) name.now }
{
    match sight.index.extension_by_name(name) {
        Some(extension) => sight.paths.contains(extension.file),
        None => false,
    }
}

/// Whether it is that of something in which names may stand.
pub fn holds_names(sight: &NameSight<'_, '_>, name: &str) -> bool
    ensures { result ≡ spec.holds_names (sight_view sight.now) name.now }
{
    is_type(sight, name) || is_service(sight, name) || sight.packages.contains(name)
}
