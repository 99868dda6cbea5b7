//! The steps of all layers.
use avro_rows::Avro;
use delta_rows::DeltaSteps;
use hudi_rows::HudiSteps;
use iceberg_rows::IcebergSteps;
use lake_rows::Parts;
use rows::{Step, Steps};
use std::alloc::{AllocError, Global};
use value_rows::Values;

/// Whose steps a row has.
#[derive(Clone, Copy)]
enum Layer {
    Value,
    Avro,
    Lake,
    Delta,
    Hudi,
    Iceberg,
}

/// What the steps of a row work on, in each layer. Until a layer is chosen no step is one.
#[derive(Drop)]
pub(crate) struct Layers {
    layer: Option<Layer>,
    values: Values,
    avro: Avro,
    parts: Parts,
    delta: DeltaSteps,
    hudi: HudiSteps,
    iceberg: IcebergSteps,
}

/// The layer of this word.
fn layer_of(word: &str) -> Option<Layer> {
    match word {
        "value" => Some(Layer::Value),
        "avro" => Some(Layer::Avro),
        "lake" => Some(Layer::Lake),
        "delta" => Some(Layer::Delta),
        "hudi" => Some(Layer::Hudi),
        "iceberg" => Some(Layer::Iceberg),
        _ => None,
    }
}

/// The layer that a step chooses, if it chooses one.
fn chosen(words: &str) -> Option<Layer> {
    layer_of(words.strip_prefix("rows of ")?)
}

impl Layers {
    pub(crate) fn new(alloc: Global) -> Result<Layers, AllocError> {
        Ok(Layers {
            layer: None,
            values: Values::new(alloc),
            avro: Avro::new(alloc),
            parts: Parts::new(alloc),
            delta: DeltaSteps::new(alloc)?,
            hudi: HudiSteps::new(alloc)?,
            iceberg: IcebergSteps::new(alloc),
        })
    }
}

impl Steps for Layers {
    fn begin(&mut self) -> Result<(), AllocError> {
        match self.layer {
            None => Ok(()),
            Some(Layer::Value) => self.values.begin(),
            Some(Layer::Avro) => self.avro.begin(),
            Some(Layer::Lake) => self.parts.begin(),
            Some(Layer::Delta) => self.delta.begin(),
            Some(Layer::Hudi) => self.hudi.begin(),
            Some(Layer::Iceberg) => self.iceberg.begin(),
        }
    }

    fn step(&mut self, step: &Step<'_>, shown: &mut String) -> Result<(), AllocError> {
        if let Some(layer) = chosen(step.words()) {
            self.layer = Some(layer);
            return self.begin();
        }
        match self.layer {
            None => writeln!(shown, "no step: {}", step.words()),
            Some(Layer::Value) => self.values.step(step, shown),
            Some(Layer::Avro) => self.avro.step(step, shown),
            Some(Layer::Lake) => self.parts.step(step, shown),
            Some(Layer::Delta) => self.delta.step(step, shown),
            Some(Layer::Hudi) => self.hudi.step(step, shown),
            Some(Layer::Iceberg) => self.iceberg.step(step, shown),
        }
    }
}
