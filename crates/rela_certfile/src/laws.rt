//! Laws of certificates. Each is a function that does nothing, and its contract is the law.

ghost use Rattle.std.specs.Prelude.{◌≡◌, ◌≢◌, ◌<◌, ◌≤◌, ◌+◌, ◌-◌, ◌^◌, ◌↔◌, ◌++◌, ◌∷◌, [], ℕ, All, List, Some, codes, length, slice_get};
ghost use Rattle.std.specs.List.{AllPairs, slice_index_or};
ghost use Rattle.rela_flows.specs.Plan.{Plan};
ghost use Rattle.rela_flows.specs.declared.predicate.FlowClass.{FlowClass};
ghost use Rattle.rela_flows.specs.declared.predicate.Predicate.{Predicate};
ghost use Rattle.rela_flows.specs.declared.planning.PlannedRow.{PlannedRow};
ghost use Rattle.rela_certfile.specs.declared.rows.ListedRow.{ListedRow};
ghost use Rattle.rela_certfile.specs.declared.rows.Step.{Step};
ghost use Rattle.rela_certfile.specs.Blocks.{block_at, blocks_of, head_line};
ghost use Rattle.rela_certfile.specs.Breaks.{BreaksAt};
ghost use Rattle.rela_certfile.specs.Layout.{IsLayout, IsNamed, Layout, shape_at};
ghost use Rattle.rela_certfile.specs.Listed.{AreListed, IsBlock, IsListedAs, words_of};
ghost use Rattle.rela_certfile.specs.Text.{lines_of, text_of, word_line};

/// The rows of a plan differ, and name its flows and its checks.
pub fn planned_rows()
    ensures differ { (classes : List FlowClass) (checks : List Predicate)
        (rows : List PlannedRow) → Plan classes checks rows → AllPairs (λ a b. a ≢ b) rows }
    ensures named { (classes : List FlowClass) (checks : List Predicate)
        (rows : List PlannedRow) → Plan classes checks rows →
        All (IsNamed (length classes) (length checks)) rows }
{}

/// A text, of fewer than 2^32 bytes, is that of one list of rows at most.
pub fn one_reading()
    ensures { (l : Layout) (a b : List ListedRow) → IsLayout l → AreListed l a → AreListed l b →
        length (text_of l a) < 2 ^ 32 → text_of l a ≡ text_of l b → a ≡ b }
{}

/// The text of listed rows, if it has fewer than 2^32 bytes, breaks at no line. So it is read as
/// these rows, unless memory runs out.
pub fn unbroken()
    ensures { (l : Layout) (rows : List ListedRow) (line : ℕ) → IsLayout l → AreListed l rows →
        length (text_of l rows) < 2 ^ 32 → ¬ BreaksAt l (text_of l rows) line }
{}

/// A text of fewer than 2^32 bytes breaks at one line at most.
pub fn breaks_once()
    ensures { (l : Layout) (text : List ℕ) (m n : ℕ) → IsLayout l → length text < 2 ^ 32 →
        BreaksAt l text m → BreaksAt l text n → m ≡ n }
{}

/// The planned row of a listed row has a check, and the blocks are as that check asks.
pub fn listed_as()
    ensures { (l : Layout) (rows : List ListedRow) (i : ℕ) (row : ListedRow) →
        AreListed l rows → slice_get rows i ≡ Some row → IsListedAs (shape_at l row.place) row }
{}

/// Listed rows stand in the order of the plan, each at most once.
pub fn in_order()
    ensures { (l : Layout) (rows : List ListedRow) (i j : ℕ) (a b : ListedRow) →
        AreListed l rows → i < j → slice_get rows i ≡ Some a → slice_get rows j ≡ Some b →
        a.place < b.place }
{}

/// A row that stands behind all listed rows, with blocks as its check asks, may be listed too.
pub fn row_appended()
    ensures { (l : Layout) (rows : List ListedRow) (row : ListedRow) → AreListed l rows →
        All (λ listed. listed.place < row.place) rows → IsListedAs (shape_at l row.place) row →
        AreListed l (rows ++ row ∷ []) }
{}

/// The blocks of a listed row, by their numbers.
pub fn listed_blocks()
    ensures { (rows : List ListedRow) (i k : ℕ) (row : ListedRow) →
        slice_get rows i ≡ Some row → block_at rows i k ≡ slice_get (blocks_of row) k }
{}

/// The lines of a block: its head stands at the line of that number, counted from 1, and its word
/// lines follow in the order of its steps.
pub fn block_lines()
    ensures complement { (l : Layout) (rows : List ListedRow) (i k : ℕ) (row : ListedRow) →
        slice_get rows i ≡ Some row → k < length row.complements →
        slice_get (lines_of l rows) (head_line rows i k - 1) ≡ Some (codes "complement") }
    ensures images { (l : Layout) (rows : List ListedRow) (i : ℕ) (row : ListedRow) →
        slice_get rows i ≡ Some row →
        slice_get (lines_of l rows) (head_line rows i (length row.complements) - 1)
        ≡ Some (codes "images") }
    ensures words { (l : Layout) (rows : List ListedRow) (i k j : ℕ) (steps : List Step)
        (step : Step) → block_at rows i k ≡ Some steps → slice_get steps j ≡ Some step →
        slice_get (lines_of l rows) (head_line rows i k + j) ≡ Some (word_line step) }
{}

/// The steps of a block are those that continue an earlier word, of which the first is the empty
/// word, by a symbol below the bound.
pub fn block_steps()
    ensures { (bound : ℕ) (steps : List Step) → IsBlock bound steps
        ↔ ((j : ℕ) (step : Step) → slice_get steps j ≡ Some step →
        (step.parent ≤ j) × (step.symbol < bound)) }
{}

/// The first word of a block is the empty word, and each step adds one word: that of its parent,
/// followed by its symbol.
pub fn block_words()
    ensures count { (steps : List Step) → length (words_of steps) ≡ length steps + 1 }
    ensures first { (steps : List Step) → slice_get (words_of steps) 0 ≡ Some [] }
    ensures others { (bound : ℕ) (steps : List Step) (j : ℕ) (step : Step) →
        IsBlock bound steps → slice_get steps j ≡ Some step → slice_get (words_of steps) (j + 1)
        ≡ Some (slice_index_or (words_of steps) step.parent [] ++ step.symbol ∷ []) }
{}
