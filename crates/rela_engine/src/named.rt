//! The symbols that terms name one by one.
ghost use Rattle.std.specs.Prelude.{◌≡◌, ◌++◌, IfOk};
ghost use Rattle.rela_rir.specs.NamedSymbols.{symbols_in, symbols_in_rel};

use rela_names::Symbol;
use rela_rir::{PathTerm, RelTerm};
use std::alloc::AllocError;

/// Appends each symbol that the path term names by itself, from left to right. It takes the time of
/// the term, and goes as deep into the stack as it.
#[cycle(names)]
#[tactic(auto, using(crate::proofs::SymbolForms::symbol_forms))]
pub(crate) fn push_symbols(symbols: &mut Vec<Symbol>, term: &PathTerm) -> Result<(), AllocError>
    ensures { IfOk result (λ _. symbols.new.items ≡ symbols.old.items ++ symbols_in term.now) }
{
    match term {
        PathTerm::One(symbol) => {
            symbols.push(*symbol)?;
            Ok(())
        }
        PathTerm::Union(a, b) => push_both(symbols, a.get(), b.get()),
        PathTerm::Concat(a, b) => push_both(symbols, a.get(), b.get()),
        PathTerm::Star(part) => push_symbols(symbols, part.get()),
        PathTerm::Meet(a, b) => push_both(symbols, a.get(), b.get()),
        PathTerm::Complement(part) => push_symbols(symbols, part.get()),
        PathTerm::Image(set, relation) => {
            push_symbols(symbols, set.get())?;
            push_of_relation(symbols, relation.get())
        }
        PathTerm::None | PathTerm::Empty | PathTerm::Class(_) | PathTerm::Pre | PathTerm::Post =>
            Ok(()),
    }
}

/// Appends those of one path term, and then those of another.
#[cycle(names)]
fn push_both(symbols: &mut Vec<Symbol>, a: &PathTerm, b: &PathTerm) -> Result<(), AllocError>
    ensures { IfOk result (λ _. symbols.new.items ≡ symbols.old.items
        ++ (symbols_in a.now ++ symbols_in b.now)) }
{
    push_symbols(symbols, a)?;
    push_symbols(symbols, b)
}

/// Appends those of a relation term.
#[cycle(names)]
#[tactic(auto, using(crate::proofs::SymbolForms::symbol_forms))]
fn push_of_relation(symbols: &mut Vec<Symbol>, term: &RelTerm) -> Result<(), AllocError>
    ensures { IfOk result (λ _. symbols.new.items ≡ symbols.old.items ++ symbols_in_rel term.now) }
{
    match term {
        RelTerm::Identity(set) => push_symbols(symbols, set.get()),
        RelTerm::Product(a, b) => push_both(symbols, a.get(), b.get()),
        RelTerm::Union(a, b) => push_both_of_relations(symbols, a.get(), b.get()),
        RelTerm::Concat(a, b) => push_both_of_relations(symbols, a.get(), b.get()),
        RelTerm::Star(part) => push_of_relation(symbols, part.get()),
        RelTerm::Compose(a, b) => push_both_of_relations(symbols, a.get(), b.get()),
    }
}

/// Appends those of one relation term, and then those of another.
#[cycle(names)]
fn push_both_of_relations(
    symbols: &mut Vec<Symbol>,
    a: &RelTerm,
    b: &RelTerm,
) -> Result<(), AllocError>
    ensures { IfOk result (λ _. symbols.new.items ≡ symbols.old.items
        ++ (symbols_in_rel a.now ++ symbols_in_rel b.now)) }
{
    push_of_relation(symbols, a)?;
    push_of_relation(symbols, b)
}
