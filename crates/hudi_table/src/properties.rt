//! The properties of a table.

ghost use Rattle.std.specs.Prelude.{◌≡◌, ◌⊎◌, IfErr, IfOk, IsErrOf, Ok, codes, option_map};
ghost use Rattle.lake_store.specs.Runs.{FailsBy, IsUncontestedBy, OnlyReads};
ghost use Rattle.hudi_properties.specs.TableProperties.{checked_table, property};
ghost use Rattle.hudi_table.specs.Files.{HasFault, ReadsAs, SaysProperties};
ghost use Rattle.hudi_table.specs.Instants.{path_of};
ghost use Rattle.hudi_table.specs.Refusals.{IsFileRefusal, IsPropertyFault, TellsOf};
ghost use Rattle.hudi_table.specs.declared.error.TimelineError.TheVariants.{StoreFault};

use crate::error::TimelineError;
use crate::file::{read_file, refusal};
use hudi_names::HudiError;
use hudi_properties::{HudiTable, Pairs, check_properties, read_properties};
use lake_basics::Text;
use lake_store::Store;
use std::alloc::Global;

/// The name of the file of a table's properties (Hudi technical specification, "Table Properties").
const PROPERTIES_NAME: &str = "hoodie.properties";

/// The properties of a table, and the table that they describe.
#[derive(Debug, Drop)]
pub struct Properties {
    pub pairs: Pairs,
    pub table: HudiTable,
}

impl Properties {
    /// The table's name, which tells it from others.
    pub fn name(&self) -> Option<&Text>
        ensures { option_map (λ name. name.now) result
            ≡ property (codes "hoodie.table.name") self.now.pairs }
    {
        let pairs = self.pairs.as_slice();
        let (_, name) = pairs
            .iter()
            .rev()
            .find(|pair| pair.0.as_str() == "hoodie.table.name")?;
        Some(name)
    }
}

/// The properties that bytes are.
fn properties_in(alloc: Global, bytes: &[u8]) -> Result<Properties, HudiError>
    ensures found { IfOk result (λ p. ReadsAs bytes.now p) }
    ensures refused { IfErr result (λ e. (e ≡ HudiError.Memory) ⊎ HasFault bytes.now e) }
{
    let pairs = read_properties(alloc, bytes)?;
    let table = check_properties(alloc, &pairs)?;
    Ok(Properties { pairs, table })
}

/// The properties of the table, read from their file. Lines of a fault count from 1.
pub fn read_table_properties<S: Store>(
    alloc: Global,
    store: &mut S,
) -> Result<Properties, TimelineError>
    ensures says { S.tells → IfOk result (SaysProperties (S.disk store.old).files) }
    ensures checked { IfOk result (λ p. checked_table p.pairs ≡ Ok p.table) }
    ensures told { IfErr result (TellsOf (λ p. p ≡ path_of (codes "hoodie.properties"))) }
    ensures refused { S.tells → IfErr result
        (IsFileRefusal (S.disk store.old).files (codes "hoodie.properties")
        (IsPropertyFault (S.disk store.old).files)) }
    ensures only_reads { S.tells → OnlyReads ⟦<S as Store>⟧ store.old store.new }
    ensures cause { FailsBy ⟦<S as Store>⟧ store.old store.new (IsErrOf result StoreFault) }
    ensures contest { IsUncontestedBy ⟦<S as Store>⟧ store.old store.new ⊥ }
{
    let bytes = read_file(alloc, store, PROPERTIES_NAME)?;
    match properties_in(alloc, bytes.as_slice()) {
        Ok(properties) => Ok(properties),
        Err(error) => Err(refusal(alloc, PROPERTIES_NAME, error)),
    }
}
