//! The options of files that generated code depends on.

ghost use Rattle.std.specs.Prelude.{◌≡◌, ◌++◌, OnOk, option_map, string_bytes};
ghost use Rattle.protobuf_parse_model.specs.Options.{file_options_view};
ghost use Rattle.protobuf_parse_changes.specs.Options as spec;
ghost use Rattle.protobuf_parse_changes.specs.Views.{place_view, told};

use crate::change::{Change, Place, tell_if};
use crate::kind::ChangeKind;
use crate::same::{same_flag, same_text};
use protobuf_parse_model::FileOptions;
use std::alloc::AllocError;

/// Tells which of them differ.
pub fn option_changes<'c>(
    changes: &mut Vec<Change<'c>>,
    at: Place<'c>,
    old: &FileOptions,
    new: &FileOptions,
) -> Result<(), AllocError>
    ensures { OnOk result (told changes.new ≡ told changes.old
        ++ spec.option_changes (place_view at.entry) (file_options_view old.now)
        (file_options_view new.now)) }
{
    java_changes(changes, at, old, new)?;
    language_changes(changes, at, old, new)?;
    php_changes(changes, at, old, new)?;
    service_option_changes(changes, at, old, new)
}

fn option_change<'c>(
    changes: &mut Vec<Change<'c>>,
    at: Place<'c>,
    name: &'c str,
    same: bool,
) -> Result<(), AllocError>
    ensures { OnOk result (told changes.new ≡ told changes.old
        ++ spec.option_change (place_view at.entry) name.now same) }
{
    let at = at.inside(name, None);
    tell_if(changes, !same, ChangeKind::FileOptionChanged, at)
}

fn text_change<'c>(
    changes: &mut Vec<Change<'c>>,
    at: Place<'c>,
    name: &'c str,
    old: &Option<String>,
    new: &Option<String>,
) -> Result<(), AllocError>
    ensures { OnOk result (told changes.new ≡ told changes.old
        ++ spec.text_change (place_view at.entry) name.now (option_map string_bytes old.now)
        (option_map string_bytes new.now)) }
{
    option_change(changes, at, name, same_text(old, new))
}

fn flag_change<'c>(
    changes: &mut Vec<Change<'c>>,
    at: Place<'c>,
    name: &'c str,
    old: Option<bool>,
    new: Option<bool>,
) -> Result<(), AllocError>
    ensures { OnOk result (told changes.new ≡ told changes.old
        ++ spec.flag_change (place_view at.entry) name.now old new) }
{
    option_change(changes, at, name, same_flag(old, new))
}

fn java_changes<'c>(
    changes: &mut Vec<Change<'c>>,
    at: Place<'c>,
    old: &FileOptions,
    new: &FileOptions,
) -> Result<(), AllocError>
    ensures { OnOk result (told changes.new ≡ told changes.old
        ++ spec.java_changes (place_view at.entry) (file_options_view old.now)
        (file_options_view new.now)) }
{
    text_change(
        changes,
        at,
        "java_package",
        &old.java_package,
        &new.java_package,
    )?;
    text_change(
        changes,
        at,
        "java_outer_classname",
        &old.java_outer_classname,
        &new.java_outer_classname,
    )?;
    flag_change(
        changes,
        at,
        "java_multiple_files",
        old.java_multiple_files,
        new.java_multiple_files,
    )
}

fn language_changes<'c>(
    changes: &mut Vec<Change<'c>>,
    at: Place<'c>,
    old: &FileOptions,
    new: &FileOptions,
) -> Result<(), AllocError>
    ensures { OnOk result (told changes.new ≡ told changes.old
        ++ spec.language_changes (place_view at.entry) (file_options_view old.now)
        (file_options_view new.now)) }
{
    text_change(changes, at, "go_package", &old.go_package, &new.go_package)?;
    text_change(
        changes,
        at,
        "objc_class_prefix",
        &old.objc_class_prefix,
        &new.objc_class_prefix,
    )?;
    text_change(
        changes,
        at,
        "csharp_namespace",
        &old.csharp_namespace,
        &new.csharp_namespace,
    )?;
    text_change(
        changes,
        at,
        "swift_prefix",
        &old.swift_prefix,
        &new.swift_prefix,
    )?;
    text_change(
        changes,
        at,
        "ruby_package",
        &old.ruby_package,
        &new.ruby_package,
    )
}

fn php_changes<'c>(
    changes: &mut Vec<Change<'c>>,
    at: Place<'c>,
    old: &FileOptions,
    new: &FileOptions,
) -> Result<(), AllocError>
    ensures { OnOk result (told changes.new ≡ told changes.old
        ++ spec.php_changes (place_view at.entry) (file_options_view old.now)
        (file_options_view new.now)) }
{
    text_change(
        changes,
        at,
        "php_class_prefix",
        &old.php_class_prefix,
        &new.php_class_prefix,
    )?;
    text_change(
        changes,
        at,
        "php_namespace",
        &old.php_namespace,
        &new.php_namespace,
    )?;
    text_change(
        changes,
        at,
        "php_metadata_namespace",
        &old.php_metadata_namespace,
        &new.php_metadata_namespace,
    )
}

fn service_option_changes<'c>(
    changes: &mut Vec<Change<'c>>,
    at: Place<'c>,
    old: &FileOptions,
    new: &FileOptions,
) -> Result<(), AllocError>
    ensures { OnOk result (told changes.new ≡ told changes.old
        ++ spec.service_option_changes (place_view at.entry) (file_options_view old.now)
        (file_options_view new.now)) }
{
    flag_change(
        changes,
        at,
        "cc_generic_services",
        old.cc_generic_services,
        new.cc_generic_services,
    )?;
    flag_change(
        changes,
        at,
        "java_generic_services",
        old.java_generic_services,
        new.java_generic_services,
    )?;
    flag_change(
        changes,
        at,
        "py_generic_services",
        old.py_generic_services,
        new.py_generic_services,
    )
}
