//! What one line of a row says, and where it may stand.

ghost use Rattle.std.specs.Prelude.{◌≢◌, ◌≤◌, MatchOption, ◌≡◌, ◌<◌, ◌+◌, ◌^◌, ◌↔◌, Some, IsSome};
ghost use Rattle.rela_certfile.specs.Items.{Allowed, MayStep, after, item_line, start, with_row};
ghost use Rattle.rela_certfile.specs.declared.item.Item.{Item};
ghost use Rattle.rela_certfile.specs.declared.item.Item.TheVariants.{Complement, Images, Word};
ghost use Rattle.rela_certfile.specs.Layout.{shape_at};

use crate::layout::PlanLayout;
use crate::numbers::step_of;
use crate::rows::Step;

/// What one line of a listed row says.
#[derive(Clone, Copy)]
pub(crate) enum Item {
    /// The block that is open has one more word.
    Word(Step),
    /// A complement block begins.
    Complement,
    /// The images block begins.
    Images,
    /// The row at this place of the plan begins.
    Row(usize),
}

/// What may come next.
#[derive(Clone, Copy)]
pub(crate) struct State {
    /// The least place that the next row may have.
    pub next: usize,
    /// How many blocks of the row are still to begin.
    pub heads: usize,
    /// How many words the block has.
    pub words: usize,
    /// The number that the symbols of the block are below, or 0 where none is open.
    pub bound: u32,
    /// The number that the symbols of the row's complement blocks are below.
    pub path_symbols: u32,
    /// The number that the symbols of the row's images block are below.
    pub symbols: u32,
}

impl State {
    /// The state before the first row.
    pub(crate) fn start() -> State
        ensures { result ≡ start }
    {
        State {
            next: 0,
            heads: 0,
            words: 1,
            bound: 0,
            path_symbols: 0,
            symbols: 0,
        }
    }

    /// What the line says, if it may come next.
    ///
    /// Time: linear in the line, and for the line of a row in the planned rows that are passed.
    pub(crate) fn item_of(self, layout: &PlanLayout, line: &[u8]) -> Option<Item>
        requires { self.words < 2 ^ 32 }
        ensures { (item : Item) → (result ≡ Some item)
            ↔ ((line.now ≡ item_line layout.now item) × Allowed layout.now self item) }
    {
        layout.is_layout();
        if line == b"complement".as_slice() {
            return self.complement();
        }
        if line == b"images".as_slice() {
            return self.images();
        }
        if let Some(step) = step_of(line) {
            return self.word(step);
        }
        if self.heads > 0 {
            return None;
        }
        let place = layout.find(self.next, line)?;
        Some(Item::Row(place))
    }

    /// A complement block, if one may begin.
    fn complement(self) -> Option<Item>
        ensures { MatchOption result (self.heads ≤ 1)
            (λ item. (item ≡ Complement) × (1 < self.heads)) }
    {
        if self.heads > 1 {
            Some(Item::Complement)
        } else {
            None
        }
    }

    /// The images block, if it may begin.
    fn images(self) -> Option<Item>
        ensures { MatchOption result (self.heads ≢ 1) (λ item. (item ≡ Images) × (self.heads ≡ 1)) }
    {
        if self.heads == 1 {
            Some(Item::Images)
        } else {
            None
        }
    }

    /// This word, if it may come next.
    fn word(self, step: Step) -> Option<Item>
        requires { self.words < 2 ^ 32 }
        ensures { MatchOption result (¬ MayStep self step)
            (λ item. (item ≡ Word step) × MayStep self step) }
    {
        if (step.parent as usize) < self.words && step.symbol < self.bound {
            Some(Item::Word(step))
        } else {
            None
        }
    }

    /// What may come after a line that says this.
    pub(crate) fn after(self, layout: &PlanLayout, item: Item) -> State
        requires allowed { Allowed layout.now self item }
        requires few { self.words < 2 ^ 32 }
        ensures { result ≡ after layout.now self item }
    {
        match item {
            Item::Word(_) => State {
                words: self.words + 1,
                ..self
            },
            Item::Complement => State {
                heads: self.heads - 1,
                words: 1,
                bound: self.path_symbols,
                ..self
            },
            Item::Images => State {
                heads: 0,
                words: 1,
                bound: self.symbols,
                ..self
            },
            Item::Row(place) => self.in_row(layout, place),
        }
    }

    /// What may come after the line of the row at this place.
    fn in_row(self, layout: &PlanLayout, place: usize) -> State
        requires { IsSome (shape_at layout.now place) }
        ensures { result ≡ with_row self place (shape_at layout.now place) }
    {
        match layout.shape(place) {
            Some(shape) => State {
                next: layout.place_after(place),
                heads: shape.complements() as usize + 1,
                words: self.words,
                bound: 0,
                path_symbols: shape.path_symbols(),
                symbols: shape.symbols(),
            },
            None => self,
        }
    }
}
