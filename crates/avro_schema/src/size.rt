//! How many types and levels a schema has.
ghost use Rattle.std.specs.Prelude.{◌≡◌, ◌+◌, ◌<◌, ◌≤◌, ◌↔◌, IsTrue, MatchOption, map};
ghost use Rattle.avro_schema.specs.Tree.{tree_of, field_of, branches_of, fields_of};
ghost use Rattle.avro_schema.specs.Sizes.{type_count, branch_type_count, field_type_count, level_count, branch_level_count, field_level_count};

use crate::schema::{Field, Schema, Shape};

/// What is left of a budget of types behind those of a schema, or none where they are more.
#[cycle(count)]
pub fn budget_behind(schema: &Schema, budget: u32) -> Option<u32>
    ensures { MatchOption result (budget < type_count (tree_of schema.now))
        (λ left. left + type_count (tree_of schema.now) ≡ budget) }
{
    if budget == 0 {
        return None;
    }
    match &schema.shape {
        Shape::Array { items, .. } => budget_behind(items, budget - 1),
        Shape::Map { values, .. } => budget_behind(values, budget - 1),
        Shape::Union(branches) => budget_behind_branches(branches, budget - 1),
        Shape::Fields { fields, .. } => budget_behind_fields(fields, budget - 1),
        _ => Some(budget - 1),
    }
}

#[cycle(count)]
fn budget_behind_branches(branches: &Vec<Schema>, budget: u32) -> Option<u32>
    ensures { MatchOption result
        (budget < branch_type_count (branches_of (map tree_of branches.now.items)))
        (λ left. left + branch_type_count (branches_of (map tree_of branches.now.items)) ≡ budget) }
{
    let mut left = budget;
    for branch in branches {
        left = budget_behind(branch, left)?;
    }
    Some(left)
}

#[cycle(count)]
fn budget_behind_fields(fields: &Vec<Field>, budget: u32) -> Option<u32>
    ensures { MatchOption result
        (budget < field_type_count (fields_of (map field_of fields.now.items)))
        (λ left. left + field_type_count (fields_of (map field_of fields.now.items)) ≡ budget) }
{
    let mut left = budget;
    for field in fields {
        left = budget_behind(&field.schema, left)?;
    }
    Some(left)
}

/// Whether a schema has at most so many levels.
#[cycle(levels)]
pub fn has_levels_within(schema: &Schema, limit: u32) -> bool
    ensures { IsTrue result ↔ level_count (tree_of schema.now) ≤ limit }
{
    if limit == 0 {
        return false;
    }
    match &schema.shape {
        Shape::Array { items, .. } => has_levels_within(items, limit - 1),
        Shape::Map { values, .. } => has_levels_within(values, limit - 1),
        Shape::Union(branches) => branches_within(branches, limit),
        Shape::Fields { fields, .. } => fields_within(fields, limit - 1),
        _ => true,
    }
}

#[cycle(levels)]
fn branches_within(branches: &Vec<Schema>, limit: u32) -> bool
    ensures { IsTrue result
        ↔ branch_level_count (branches_of (map tree_of branches.now.items)) ≤ limit }
{
    for branch in branches {
        if !has_levels_within(branch, limit) {
            return false;
        }
    }
    true
}

#[cycle(levels)]
fn fields_within(fields: &Vec<Field>, limit: u32) -> bool
    ensures { IsTrue result
        ↔ field_level_count (fields_of (map field_of fields.now.items)) ≤ limit }
{
    for field in fields {
        if !has_levels_within(&field.schema, limit) {
            return false;
        }
    }
    true
}
