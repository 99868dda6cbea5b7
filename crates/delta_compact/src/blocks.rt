//! Blocks of ten versions.

ghost use Rattle.std.specs.Prelude.{◌≤◌, ◌+◌, ◌*◌, IfOk};
ghost use Rattle.lake_basics.specs.declared.limits.TheConstants.{MAX_DELTA_VERSION};
ghost use Rattle.delta_compact.specs.Blocks.{IsBlockPath, IsWithin};
ghost use Rattle.delta_compact.specs.Compacting.{AreBlocksOf};

use delta_compaction::name_of_range;
use lake_basics::Text;
use std::alloc::{AllocError, Global};

/// How many whole blocks lie up to the newest version.
pub(crate) fn block_count(newest: u64) -> u64
    requires { newest ≤ MAX_DELTA_VERSION }
    ensures { AreBlocksOf newest result }
{
    (newest + 1) / 10
}

/// The path of a block's log compaction (Delta protocol, "Log Compaction Files").
pub(crate) fn block_path(alloc: Global, block: u64) -> Result<Text, AllocError>
    requires { IsWithin MAX_DELTA_VERSION block }
    ensures { IfOk result (λ path. IsBlockPath path block) }
{
    let first = 10 * block;
    let name = name_of_range(alloc, first, first + 9)?;
    Ok(Text::from_string(format!(in alloc; "_delta_log/{}", name.as_str())?))
}
