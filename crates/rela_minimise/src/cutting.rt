//! Classes that are split by one column.
ghost use Rattle.std.specs.Prelude.{◌<◌, IfOk, length};
ghost use Rattle.rela_minimise.specs.Cutting.{AreCounted, GoesTo, IsCut, IsParted, IsPassed};
ghost use Rattle.rela_minimise.specs.Refining.{IsMap};
ghost use Rattle.rela_minimise.specs.Stored.{lists_of};
ghost use Rattle.std.specs.List.{All};

use crate::class_pairs::{ClassPair, ClassPairs};
use crate::refinement::Classes;
use std::alloc::{AllocError, Global};

/// The classes, split by each of the columns in turn. Time: a step for each state and column, and a
/// look-up for each state that leaves its class.
pub(crate) fn cut_by_all(
    alloc: Global,
    classes: Classes,
    columns: &[Vec<usize>],
) -> Result<Classes, AllocError>
    requires maps { All (IsMap (length classes.numbers.items)) (lists_of columns.now) }
    requires counted { AreCounted (length classes.numbers.items) classes.count
        classes.numbers.items }
    ensures { IfOk result (λ made. IsPassed (length classes.numbers.items) (lists_of columns.now)
        (length columns.now) classes.count classes.numbers.items made.count made.numbers.items) }
{
    let mut made = classes;
    for column in columns {
        made = cut(alloc, &made, column)?;
    }
    Ok(made)
}

/// The classes, each split by the classes to which the column leads from its states. A class keeps
/// its number for those that go with its first state.
fn cut(alloc: Global, classes: &Classes, column: &[usize]) -> Result<Classes, AllocError>
    requires column { IsMap (length classes.now.numbers.items) column.now }
    requires counted { AreCounted (length classes.now.numbers.items) classes.now.count
        classes.now.numbers.items }
    ensures { IfOk result (λ made. IsCut (length classes.now.numbers.items) column.now
        classes.now.count classes.now.numbers.items made.count made.numbers.items) }
{
    let mut firsts = Vec::new(alloc);
    firsts.resize(classes.count, None)?;
    let mut pairs = ClassPairs::new(alloc);
    let mut numbers = Vec::with_capacity(alloc, classes.numbers.len())?;
    for q in 0..classes.numbers.len() {
        let pair = ClassPair {
            class: classes.numbers[q],
            onto: classes.numbers[column[q]],
        };
        numbers.push(part_of(&mut firsts, &mut pairs, pair)?)?;
    }
    let old = firsts.len();
    let new = pairs.len();
    let count = old + new;
    Ok(Classes { numbers, count })
}

/// The part to which a state of the class goes from which the column leads to this class: its class
/// where its first state goes along, and else the new class of the pair.
fn part_of(
    firsts: &mut Vec<Option<usize>>,
    pairs: &mut ClassPairs,
    pair: ClassPair,
) -> Result<usize, AllocError>
    requires { pair.class < length firsts.old.items }
    ensures goes { IfOk result (λ part. GoesTo firsts.new.items pairs.new pair.class pair.onto
        part) }
    ensures parted { IfOk result (λ part. IsParted pair.class part firsts.old.items pairs.old
        firsts.new.items pairs.new) }
{
    let Some(first) = firsts[pair.class] else {
        firsts[pair.class] = Some(pair.onto);
        return Ok(pair.class);
    };
    if first == pair.onto {
        return Ok(pair.class);
    }
    let number = pairs.number(pair)?;
    Ok(firsts.len() + number)
}
