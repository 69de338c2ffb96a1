//! Which oneofs of a message are written.

ghost use Rattle.std.specs.Prelude.{◌≡◌, IfOk, map};
ghost use Rattle.protobuf_parse_model.specs.Descriptors.{field_view};
ghost use Rattle.protobuf_parse_locations.specs.Declarations.{is_synthetic};
ghost use Rattle.protobuf_parse_locations.specs.Marks.{Marks, index_among};

use protobuf_parse_model::FieldDescriptorProto;
use std::alloc::{AllocError, Global};

/// Of each of so many oneofs of a message with these fields, whether it is synthetic.
pub fn synthetic_oneofs(
    alloc: Global,
    fields: &[FieldDescriptorProto],
    count: usize,
) -> Result<Vec<bool>, AllocError>
    ensures { IfOk result (λ marks. Marks (is_synthetic (map field_view fields.now)) count
        marks.items) }
{
    let mut synthetic = vec![in alloc; false; count]?;
    'fields: for field in fields {
        match index_of_synthetic(field, count) {
            Some(oneof) => synthetic[oneof] = true,
            None => {}
        }
    }
    Ok(synthetic)
}

/// The index of the synthetic oneof that the field is in, if it is one of so many.
fn index_of_synthetic(field: &FieldDescriptorProto, count: usize) -> Option<usize>
    ensures { result ≡ index_among count (field_view field.now) }
{
    if !field.proto3_optional {
        return None;
    }
    match field.oneof_index {
        Some(index) if index >= 0 => {
            let at = index.unsigned_abs() as usize;
            if at < count { Some(at) } else { None }
        }
        _ => None,
    }
}
