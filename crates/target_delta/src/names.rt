//! The paths in a log's folder that a commit is written under.

ghost use Rattle.std.specs.Prelude.{◌≤◌, IfOk};
ghost use Rattle.lake_basics.specs.declared.limits.TheConstants.{MAX_DELTA_VERSION};
ghost use Rattle.target_delta.specs.Names.{IsStagedPath};

use delta_log::name_of_version;
use lake_basics::Text;
use std::alloc::{AllocError, Global};

/// The path that a version is staged under.
pub(crate) fn staged_path(alloc: Global, version: u64) -> Result<Text, AllocError>
    requires { version ≤ MAX_DELTA_VERSION }
    ensures { IfOk result (λ path. IsStagedPath path version) }
{
    let name = name_of_version(alloc, version)?;
    Ok(Text::from_string(format!(in alloc; "_delta_log/.lakebridge-{}", name.as_str())?))
}
