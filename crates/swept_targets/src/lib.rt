//! What removing leftovers asks of a target, and that each of the three targets meets it: it reads
//! without a leftover that is loose as it reads with it.
#![tactic(auto)]

ghost use Rattle.target_core.specs.TargetMeanings.{meaning};
ghost use Rattle.target_leftovers.specs.Loose.{ReadsWithoutLoose};

use target_core::Target;
use target_delta::DeltaTarget;
use target_hudi::HudiTarget;
use target_iceberg::IcebergTarget;

/// States that a Delta target reads without a staged version as it reads with it. It does nothing.
pub fn delta_reads_without_loose(target: &DeltaTarget)
    ensures { ReadsWithoutLoose (meaning ⟦<DeltaTarget as Target>⟧ target.now) }
{
    let _ = target;
}

/// States that an Iceberg target reads without a file that no version reaches as it reads with it.
/// It does nothing.
pub fn iceberg_reads_without_loose(target: &IcebergTarget)
    ensures { ReadsWithoutLoose (meaning ⟦<IcebergTarget as Target>⟧ target.now) }
{
    let _ = target;
}

/// States that a Hudi target reads without a leftover of a stopped commit as it reads with it, where
/// a claim is the last of its instant. It does nothing.
pub fn hudi_reads_without_loose(target: &HudiTarget)
    ensures { ReadsWithoutLoose (meaning ⟦<HudiTarget as Target>⟧ target.now) }
{
    let _ = target;
}
