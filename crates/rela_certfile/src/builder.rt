//! The rows of a certificate, gathered line by line.

ghost use Rattle.std.specs.Prelude.{[], ◌∷◌, ◌++◌, List, OnOk};
ghost use Rattle.rela_certfile.specs.declared.item.Item.{Item};
ghost use Rattle.rela_certfile.specs.Items.{Gathers};

use crate::item::Item;
use crate::rows::Step;
use std::alloc::{AllocError, Global};

/// What the lines so far say.
#[derive(Drop)]
pub(crate) struct Builder {
    /// The place in the plan of each row.
    pub places: Vec<usize>,
    /// For each row, how many blocks stand before its own.
    pub firsts: Vec<usize>,
    /// For each block, how many steps stand before its own.
    pub starts: Vec<usize>,
    /// The steps of all blocks.
    pub steps: Vec<Step>,
}

impl Builder {
    /// Nothing so far.
    pub(crate) fn new(alloc: Global) -> Builder
        ensures { Gathers [] result }
    {
        Builder {
            places: Vec::new(alloc),
            firsts: Vec::new(alloc),
            starts: Vec::new(alloc),
            steps: Vec::new(alloc),
        }
    }

    /// Appends what a line says. Time: constant, but for what the vectors take as they grow.
    pub(crate) fn push(&mut self, item: Item) -> Result<(), AllocError>
        ensures { OnOk result ((items : List Item) → Gathers items self.old →
            Gathers (items ++ item ∷ []) self.new) }
    {
        match item {
            Item::Word(step) => self.steps.push(step)?,
            Item::Complement => self.starts.push(self.steps.len())?,
            Item::Images => self.starts.push(self.steps.len())?,
            Item::Row(place) => {
                self.firsts.push(self.starts.len())?;
                self.places.push(place)?;
            }
        }
        Ok(())
    }
}
