//! The order of a message's oneofs: synthetic ones stand behind the others.

ghost use Rattle.std.specs.Prelude.{◌≡◌, IfOk, count_by, length, map, not};
ghost use Rattle.protobuf_parse_model.specs.Descriptors.{field_view};
ghost use Rattle.protobuf_parse_descriptor_set.specs.OneofOrder as spec;
ghost use Rattle.protobuf_parse_descriptor_set.specs.Told as told;
ghost use Rattle.protobuf_parse_descriptor_set.specs.Told.{Tells};

use protobuf_parse_model::FieldDescriptorProto;
use std::alloc::{AllocError, Global};

/// Of each of so many oneofs of a message with these fields, whether it is synthetic.
pub fn synthetic_oneofs(
    alloc: Global,
    fields: &[FieldDescriptorProto],
    count: usize,
) -> Result<Vec<bool>, AllocError>
    ensures { IfOk result (λ marks. Tells
        (spec.is_synthetic (map field_view fields.now)) count marks.items) }
{
    let mut synthetic = vec![in alloc; false; count]?;
    let mut has_members = vec![in alloc; false; count]?;
    for field in fields {
        match index_among(count, &field.oneof_index) {
            Some(oneof) => {
                synthetic[oneof] = field.proto3_optional && !has_members[oneof];
                has_members[oneof] = true;
            }
            None => {}
        }
    }
    Ok(synthetic)
}

/// The index, if it is that of one of so many.
fn index_among(count: usize, index: &Option<i32>) -> Option<usize>
    ensures { result ≡ told.index_among count index.now }
{
    match index {
        Some(index) if *index >= 0 => {
            let at = index.unsigned_abs() as usize;
            if at < count { Some(at) } else { None }
        }
        _ => None,
    }
}

/// Where each of the oneofs comes to stand: those that are no synthetic ones from 0 on, then those
/// that are, each kind in order.
pub fn new_indices(alloc: Global, synthetic: &[bool]) -> Result<Vec<usize>, AllocError>
    ensures { IfOk result (λ indices. Tells
        (spec.new_index synthetic.now) (length synthetic.now) indices.items) }
{
    let mut next_written: usize = 0;
    let mut next_synthetic = written_count(synthetic);
    let mut indices = Vec::with_capacity(alloc, synthetic.len())?;
    for is_synthetic in synthetic {
        if *is_synthetic {
            indices.push(next_synthetic)?;
            next_synthetic += 1;
        } else {
            indices.push(next_written)?;
            next_written += 1;
        }
    }
    Ok(indices)
}

/// How many of the oneofs are no synthetic ones.
fn written_count(synthetic: &[bool]) -> usize
    ensures { result ≡ count_by not synthetic.now }
{
    let mut count = 0;
    for is_synthetic in synthetic {
        if !*is_synthetic {
            count += 1;
        }
    }
    count
}

/// The index of a field by the new indices of oneofs. One that is that of no oneof stays.
pub fn index_in_set(indices: &[usize], index: &Option<i32>) -> Result<Option<i32>, AllocError>
    ensures { IfOk result (λ moved. moved ≡ told.index_by indices.now index.now) }
{
    match index_among(indices.len(), index) {
        None => Ok(*index),
        Some(oneof) => match i32::try_from(indices[oneof]) {
            Ok(index) => Ok(Some(index)),
            Err(_) => Err(AllocError),
        },
    }
}
