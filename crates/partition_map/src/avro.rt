//! Partition values as Avro values.
ghost use Rattle.std.specs.Prelude.{◌≡◌, ◌↔◌, IfOk, IfErr, IsErrOf, MatchOption};
ghost use Rattle.avro_value.specs.ValueTree.{null, value_tree};
ghost use Rattle.table_history.specs.declared.row.PartValue.{PartValue};
ghost use Rattle.partition_map.specs.Avro.{branch_of, BranchStands, AvroStands, avro_value_of};
ghost use Rattle.partition_map.specs.Errors.{IsReadingError};
ghost use Rattle.partition_map.specs.Kind.{IsOfKind};
ghost use Rattle.partition_map.specs.declared.kind.PartKind.{PartKind};

use crate::error::PartError;
use crate::kind::PartKind;
use avro_value::Value;
use std::alloc::{AllocError, Global};
use table_history::PartValue;

/// The value that a field of a manifest's partition record stands for: null, or one of the kind,
/// alone or as a branch of a union. `BadValue` where it is neither.
pub fn from_avro_value(alloc: Global, kind: PartKind, value: &Value) -> Result<PartValue, PartError>
    ensures ok { IfOk result (AvroStands kind (value_tree value.now)) }
    ensures only { IfOk result
        (λ v. (w : PartValue) → AvroStands kind (value_tree value.now) w → w ≡ v) }
    ensures bad { IsErrOf result PartError.BadValue
        ↔ ((v : PartValue) → ¬ AvroStands kind (value_tree value.now) v) }
    ensures refused { IfErr result IsReadingError }
{
    match branch_of(value) {
        Some(branch) => branch_value(alloc, kind, branch),
        None => Ok(PartValue::Null),
    }
}

// The value of a union's branch, or of a field that is no union. `None` stands for null.
fn branch_of(value: &Value) -> Option<&Value>
    ensures { MatchOption result (branch_of (value_tree value.now) ≡ null)
        (λ branch. value_tree branch.now ≡ branch_of (value_tree value.now)) }
{
    match value {
        Value::Union(_, branch) => Some(branch),
        Value::NullBranch(_) => None,
        _ => Some(value),
    }
}

// The partition value that the value of a branch stands for.
fn branch_value(alloc: Global, kind: PartKind, value: &Value) -> Result<PartValue, PartError>
    ensures ok { IfOk result (BranchStands kind (value_tree value.now)) }
    ensures only { IfOk result
        (λ v. (w : PartValue) → BranchStands kind (value_tree value.now) w → w ≡ v) }
    ensures bad { IsErrOf result PartError.BadValue
        ↔ ((v : PartValue) → ¬ BranchStands kind (value_tree value.now) v) }
    ensures refused { IfErr result IsReadingError }
{
    match (kind, value) {
        (_, Value::Null) => Ok(PartValue::Null),
        (PartKind::Boolean, Value::Boolean(b)) => Ok(PartValue::Boolean(*b)),
        (PartKind::Int, Value::Int(n)) => Ok(PartValue::Int(*n)),
        (PartKind::Long, Value::Long(n)) => Ok(PartValue::Long(*n)),
        (PartKind::Text, Value::Text(text)) => Ok(PartValue::Text(text.copy(alloc)?)),
        (PartKind::Date, Value::Int(days)) => Ok(PartValue::Date(*days)),
        _ => Err(PartError::BadValue),
    }
}

/// The value as that of a field whose type is the union of null and the type of its kind, in this
/// order. Memory alone is refused.
pub fn to_avro_value(alloc: Global, value: &PartValue) -> Result<Value, PartError>
    ensures value { IfOk result (λ v. value_tree v ≡ avro_value_of value.now) }
    ensures stands { IfOk result
        (λ v. (kind : PartKind) → IsOfKind kind value.now
        → AvroStands kind (value_tree v) value.now) }
    ensures refused { IfErr result (λ e. e ≡ PartError.Memory) }
{
    let (index, branch) = match value {
        PartValue::Null => (0, Value::Null),
        PartValue::Boolean(b) => (1, Value::Boolean(*b)),
        PartValue::Int(n) => (1, Value::Int(*n)),
        PartValue::Long(n) => (1, Value::Long(*n)),
        PartValue::Text(text) => (1, Value::Text(text.copy(alloc)?)),
        PartValue::Date(days) => (1, Value::Int(*days)),
    };
    Ok(Value::Union(index, boxed(alloc, branch)?))
}

fn boxed(alloc: Global, value: Value) -> Result<Box<Value>, AllocError>
    ensures { IfOk result (λ b. b.value ≡ value) }
{
    Ok(Box::new(alloc, value)?)
}
