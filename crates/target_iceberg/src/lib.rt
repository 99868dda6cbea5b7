//! An Iceberg table as the target of a sync: what its metadata, lists and manifests stand for, and
//! the calls that inspect it and publish commits.
#![tactic(auto)]

mod fitting;
mod form;
mod inspect;
mod linking;
mod names;
mod newest;
mod publish;
mod shape;
mod target;

pub use target::IcebergTarget;
