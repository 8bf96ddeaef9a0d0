//! The text of a certificate, written row by row.

ghost use Rattle.std.specs.Prelude.{◌≡◌, ◌++◌, ◌∷◌, [], List, map, IfOk, OnOk};
ghost use Rattle.std.specs.List.{flat_map};
ghost use Rattle.rela_certfile.specs.declared.rows.ListedRow.{ListedRow};
ghost use Rattle.rela_certfile.specs.Layout.{Layout, shape_at};
ghost use Rattle.rela_certfile.specs.Listed.{AreListed, IsListedAs};
ghost use Rattle.rela_certfile.specs.Text.{complement_lines, ended, text_begun, text_of, word_line};

use crate::layout::PlanLayout;
use crate::numbers::push_step;
use crate::rows::{ListedRow, Step};
use rela_names::List;
use std::alloc::{AllocError, Global};
use std::marker::Model;

/// The text of a certificate as far as it is written. Contracts see it as its bytes.
#[derive(Drop)]
pub struct Writer {
    /// What is written.
    text: Vec<u8>,
}

impl Model for Writer {
    ghost use Rattle.std.specs.Prelude.{List, ℕ};

    ghost Value = { List ℕ };

    ghost view = { λ writer. writer.text.items };
}

impl Writer {
    /// A text that begins: it lists no row so far.
    ///
    /// # Errors
    ///
    /// Only where memory is wanted.
    pub fn new(alloc: Global) -> Result<Writer, AllocError>
        ensures { IfOk result (λ writer. (l : Layout) → writer ≡ text_begun l []) }
    {
        let text = Vec::from_slice(alloc, b"rela certificate 1\n".as_slice())?;
        Ok(Writer { text })
    }

    /// Appends the lines of a row. Time: linear in them.
    ///
    /// # Errors
    ///
    /// Only where memory is wanted. What is written then is of no use.
    pub fn push_row(&mut self, layout: &PlanLayout, row: &ListedRow) -> Result<(), AllocError>
        requires { IsListedAs (shape_at layout.now row.now.place) row.now }
        ensures { OnOk result ((rows : List ListedRow) → self.old ≡ text_begun layout.now rows →
            self.new ≡ text_begun layout.now (rows ++ row.now ∷ [])) }
    {
        layout.push_row_line(&mut self.text, row.place)?;
        push_complements(&mut self.text, row.complements.as_slice())?;
        push_block(
            &mut self.text,
            b"images\n".as_slice(),
            row.images.as_slice(),
        )?;
        Ok(())
    }

    /// The whole text, which is ended.
    ///
    /// # Errors
    ///
    /// Only where memory is wanted.
    pub fn finish(self) -> Result<Vec<u8>, AllocError>
        ensures { IfOk result (λ text. (l : Layout) (rows : List ListedRow) →
            self ≡ text_begun l rows → text.items ≡ text_of l rows) }
    {
        let Writer { mut text } = self;
        text.extend_from_slice(b"end\n".as_slice())?;
        Ok(text)
    }
}

/// Appends the blocks of complements.
fn push_complements(text: &mut Vec<u8>, blocks: &[List<Step>]) -> Result<(), AllocError>
    ensures { OnOk result (text.new.items ≡ text.old.items
        ++ ended (flat_map complement_lines blocks.now)) }
{
    for steps in blocks {
        push_block(text, b"complement\n".as_slice(), steps.as_slice())?;
    }
    Ok(())
}

/// Appends the head of a block, and its word lines.
fn push_block(text: &mut Vec<u8>, head: &[u8], steps: &[Step]) -> Result<(), AllocError>
    ensures { OnOk result (text.new.items ≡ text.old.items
        ++ (head.now ++ ended (map word_line steps.now))) }
{
    text.extend_from_slice(head)?;
    for step in steps {
        push_step(text, *step)?;
    }
    Ok(())
}

/// The text of the certificate that lists these rows. Time and space: linear in it.
///
/// # Errors
///
/// Only where memory is wanted.
pub fn text(alloc: Global, layout: &PlanLayout, rows: &[ListedRow]) -> Result<Vec<u8>, AllocError>
    requires { AreListed layout.now rows.now }
    ensures { IfOk result (λ text. text.items ≡ text_of layout.now rows.now) }
{
    let mut writer = Writer::new(alloc)?;
    for row in rows {
        writer.push_row(layout, row)?;
    }
    writer.finish()
}
