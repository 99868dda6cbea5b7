//! Steps on the kinds of partition columns.
use lake_basics::Text;
use partition_map::{PartKind, are_distinct, column_kinds, has_other_kind, part_kind};
use rows::show_answer;
use std::alloc::{AllocError, Global};
use table_history::{Column, ColumnType, Schema};

/// The schema of a row, and the one before it.
#[derive(Drop)]
pub struct Columns {
    alloc: Global,
    before: Schema,
    schema: Schema,
}

impl Columns {
    /// Schemas of no columns.
    pub fn new(alloc: Global) -> Columns {
        Columns {
            alloc,
            before: Schema::new(Vec::new(alloc)),
            schema: Schema::new(Vec::new(alloc)),
        }
    }

    /// Sets the schema before.
    pub fn set_before(&mut self, lines: &[&str]) -> Result<(), AllocError> {
        self.before = schema_of(self.alloc, lines)?;
        Ok(())
    }

    /// Sets the schema.
    pub fn set(&mut self, lines: &[&str]) -> Result<(), AllocError> {
        self.schema = schema_of(self.alloc, lines)?;
        Ok(())
    }

    /// Shows the kinds that the columns of these names have.
    pub fn show_kinds(&self, lines: &[&str], shown: &mut String) -> Result<(), AllocError> {
        let names = texts(self.alloc, lines)?;
        let kinds = column_kinds(self.alloc, &self.schema, &names)?;
        show_each(lines, &kinds, shown)
    }

    /// Shows whether one of the names has another kind than before.
    pub fn show_changed(&self, lines: &[&str], shown: &mut String) -> Result<(), AllocError> {
        let names = texts(self.alloc, lines)?;
        let changed = has_other_kind(self.alloc, &self.before, &self.schema, &names)?;
        writeln!(shown, "{changed}")
    }

    /// Shows whether no name comes twice.
    pub fn show_distinct(&self, lines: &[&str], shown: &mut String) -> Result<(), AllocError> {
        let names = texts(self.alloc, lines)?;
        let are_distinct = are_distinct(self.alloc, &names)?;
        writeln!(shown, "{are_distinct}")
    }
}

/// Shows the kind of each name.
fn show_each(
    names: &[&str],
    kinds: &[Option<PartKind>],
    shown: &mut String,
) -> Result<(), AllocError> {
    for (name, kind) in names.iter().zip(kinds.iter()) {
        match kind {
            Some(kind) => writeln!(shown, "{name} -> {kind:?}")?,
            None => show_answer(shown, name, "none")?,
        }
    }
    Ok(())
}

/// Shows the kind of partition columns of the type that a word names.
pub fn show_kind_of(word: &str, shown: &mut String) -> Result<(), AllocError> {
    match kind_of_type(word) {
        Some(kind) => writeln!(shown, "{kind:?}"),
        None => writeln!(shown, "none"),
    }
}

fn kind_of_type(word: &str) -> Option<PartKind> {
    part_kind(&type_of(word)?)
}

/// The lines as texts.
pub fn texts(alloc: Global, lines: &[&str]) -> Result<Vec<Text>, AllocError> {
    let mut texts = Vec::new(alloc);
    for line in lines {
        texts.push(Text::from_str(alloc, line)?)?;
    }
    Ok(texts)
}

/// The type that a word names.
fn type_of(word: &str) -> Option<ColumnType> {
    match word {
        "short" => Some(ColumnType::Short),
        "int" => Some(ColumnType::Int),
        "long" => Some(ColumnType::Long),
        "float" => Some(ColumnType::Float),
        "binary" => Some(ColumnType::Binary),
        "date" => Some(ColumnType::Date),
        _ => None,
    }
}

/// The schema of the columns on these lines, each a name and a type.
fn schema_of(alloc: Global, lines: &[&str]) -> Result<Schema, AllocError> {
    let mut columns = Vec::new(alloc);
    for line in lines {
        if let Some(column) = column_of(alloc, line)? {
            columns.push(column)?;
        }
    }
    Ok(Schema::new(columns))
}

fn column_of(alloc: Global, line: &str) -> Result<Option<Column>, AllocError> {
    let (name, word) = line.split_once(' ').unwrap_or((line, ""));
    let name = Text::from_str(alloc, name)?;
    Ok(match type_of(word) {
        Some(kind) => Some(Column {
            name,
            kind,
            nullable: true,
        }),
        None => None,
    })
}
