//! Iceberg's manifests, read as their bytes come, piece by piece (Apache Iceberg table specification,
//! "Manifests").
#![tactic(auto)]

mod feeder;

pub use feeder::ManifestFeeder;
