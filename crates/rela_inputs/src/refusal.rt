//! Which input is refused and why, and the line that says so.

ghost use Rattle.std.specs.Prelude.{◌≡◌, ◌++◌, IfOk, OnOk, string_bytes};
ghost use Rattle.rela_inputs.specs.Refusal.{input_text, in_row, by_rule, load_text, at_offset, spec_text, class_text, differs_text, fib_text, reason_text, at_place, refusal_line};

use rela_fib::FibError;
use rela_flows::FlowClass;
use rela_json::LoadError;
use rela_lex::SpecError;
use std::alloc::{AllocError, Global};

/// What a command reads, and what a refusal speaks of.
#[derive(Clone, Copy, Debug, PartialEq, Eq)]
pub enum Input {
    /// The location file.
    Locations,
    /// The snapshot before the change.
    Before,
    /// The snapshot after the change.
    After,
    /// The flows of the two snapshots, side by side.
    Pair,
    /// The specification.
    Spec,
    /// The table file that a snapshot is made of.
    Tables,
    /// The table file whose routes cut the flows too.
    Other,
    /// The file with assertions.
    Assertions,
    /// The certificate.
    Certificate,
    /// The words of the command line.
    Words,
}

/// Which input is refused, and why.
#[derive(Debug, Drop)]
pub struct Refusal {
    /// The input.
    pub input: Input,
    /// What is wrong with it.
    pub reason: Reason,
}

/// Why an input is refused.
#[derive(Debug, Drop)]
pub enum Reason {
    /// The file has more bytes than are allowed.
    TooLong,
    /// The first fault of a JSON file, in the order in which it is walked. It isn't want of memory.
    Load(LoadError),
    /// The two snapshots give a flow of one name different prefixes or classes.
    FlowDiffers { before: FlowClass, after: FlowClass },
    /// The first fault of the text of a specification or of assertions. It isn't want of memory.
    Specification(SpecError),
    /// Why tables give no snapshot. It isn't want of memory.
    Snapshot(FibError),
    /// No check has the name that the words give.
    UnknownCheck,
}

/// The line that a refused input gets, with its line feed: `refused`, the place, the number and
/// name of the refusal, and its detail. Time and space: linear in the line.
///
/// # Errors
///
/// Only where memory is wanted.
pub fn refusal_line(alloc: Global, refusal: &Refusal) -> Result<Vec<u8>, AllocError>
    ensures { IfOk result (λ text. text.items ≡ refusal_line refusal.now) }
{
    let said = reason_text(alloc, &refusal.reason)?;
    at_place(alloc, input_text(refusal.input), said.as_slice())
}

/// The number and name of the refusal, and its detail.
fn reason_text(alloc: Global, reason: &Reason) -> Result<Vec<u8>, AllocError>
    ensures { IfOk result (λ text. text.items ≡ reason_text reason.now) }
{
    match reason {
        Reason::TooLong => Vec::from_slice(alloc, b"2 TooLong"),
        Reason::Load(error) => Ok(load_text(alloc, error)?.into_bytes()),
        Reason::FlowDiffers { before, after } => differs_text(alloc, before, after),
        Reason::Specification(error) => Ok(spec_text(alloc, error)?.into_bytes()),
        Reason::Snapshot(error) => Ok(fib_text(alloc, error)?.into_bytes()),
        Reason::UnknownCheck => Vec::from_slice(alloc, b"33 UnknownName"),
    }
}

/// The place that a line names for an input.
fn input_text(input: Input) -> &'static str
    ensures { result.now ≡ input_text input }
{
    match input {
        Input::Locations => "locations",
        Input::Before => "before",
        Input::After => "after",
        Input::Pair => "pair",
        Input::Spec => "spec",
        Input::Tables => "tables",
        Input::Other => "other",
        Input::Assertions => "assertions",
        Input::Certificate => "certificate",
        Input::Words => "words",
    }
}

/// The line that says what is refused at a place.
#[tactic(auto, unfolding(crate::specs::Refusal::at_place))]
fn at_place(alloc: Global, place: &str, said: &[u8]) -> Result<Vec<u8>, AllocError>
    ensures { IfOk result (λ text. text.items ≡ at_place place.now said.now) }
{
    let mut text = Vec::new(alloc);
    text.extend_from_slice(b"refused ")?;
    text.extend_from_slice(place.as_bytes())?;
    text.extend_from_slice(b" ")?;
    text.extend_from_slice(said)?;
    text.extend_from_slice(b"\n")?;
    Ok(text)
}

/// The number and name of a JSON file's fault, with its rule and its row where it has them. It is
/// empty for want of memory, which is no refusal.
fn load_text(alloc: Global, error: &LoadError) -> Result<String, AllocError>
    ensures { IfOk result (λ text. string_bytes text ≡ load_text error.now) }
{
    match *error {
        LoadError::NotJson => String::from_str(alloc, "11 NotJson"),
        LoadError::WrongShape { rule, row } => {
            let refusal = by_rule(alloc, rule)?;
            in_row(alloc, refusal.as_str(), row)
        }
        LoadError::BadVersion => String::from_str(alloc, "13 BadVersion"),
        LoadError::BadName { row } => in_row(alloc, "14 BadName", row),
        LoadError::ReservedName { row } => in_row(alloc, "15 ReservedName", row),
        LoadError::RepeatedEntry { row } => in_row(alloc, "16 RepeatedEntry", row),
        LoadError::UnknownLocation { row } => in_row(alloc, "17 UnknownLocation", row),
        LoadError::BadIndex { row } => in_row(alloc, "18 BadIndex", row),
        LoadError::BadPrefix { row } => in_row(alloc, "19 BadPrefix", row),
        LoadError::TooMany { row } => in_row(alloc, "20 TooMany", row),
        LoadError::UnknownNode { row } => in_row(alloc, "22 UnknownNode", row),
        LoadError::Memory => Ok(String::new(alloc)),
    }
}

/// The number and name of a wrong shape, with the rule that is broken.
#[tactic(auto, unfolding(crate::specs::Refusal::by_rule))]
fn by_rule(alloc: Global, rule: u8) -> Result<String, AllocError>
    ensures { IfOk result (λ text. string_bytes text ≡ by_rule rule) }
{
    format!(in alloc; "12 WrongShape rule {rule}")
}

/// A refusal with the row that it stands in.
#[tactic(auto, unfolding(crate::specs::Refusal::in_row))]
fn in_row(alloc: Global, refusal: &str, row: u32) -> Result<String, AllocError>
    ensures { IfOk result (λ text. string_bytes text ≡ in_row refusal.now row) }
{
    format!(in alloc; "{refusal} row {row}")
}

/// The number and name of a specification's fault, and the offset in bytes where it stands. It is
/// empty for want of memory, which is no refusal.
fn spec_text(alloc: Global, error: &SpecError) -> Result<String, AllocError>
    ensures { IfOk result (λ text. string_bytes text ≡ spec_text error.now) }
{
    match *error {
        SpecError::BadToken { at } => at_offset(alloc, "31 BadToken", at),
        SpecError::Syntax { at } => at_offset(alloc, "32 Syntax", at),
        SpecError::UnknownName { at } => at_offset(alloc, "33 UnknownName", at),
        SpecError::RepeatedName { at } => at_offset(alloc, "34 RepeatedName", at),
        SpecError::TooDeep { at } => at_offset(alloc, "35 TooDeep", at),
        SpecError::TooLarge { at } => at_offset(alloc, "36 TooLarge", at),
        SpecError::BadNumber { at } => at_offset(alloc, "37 BadNumber", at),
        SpecError::FinerLevel { at } => at_offset(alloc, "38 FinerLevel", at),
        SpecError::UnknownLocation { at } => at_offset(alloc, "17 UnknownLocation", at),
        SpecError::Memory => Ok(String::new(alloc)),
    }
}

/// A refusal with the offset in bytes where it stands.
#[tactic(auto, unfolding(crate::specs::Refusal::at_offset))]
fn at_offset(alloc: Global, refusal: &str, at: u32) -> Result<String, AllocError>
    ensures { IfOk result (λ text. string_bytes text ≡ at_offset refusal.now at) }
{
    format!(in alloc; "{refusal} at {at}")
}

/// The number and name of why tables give no snapshot. It is empty for want of memory, which is no
/// refusal.
fn fib_text(alloc: Global, error: &FibError) -> Result<String, AllocError>
    ensures { IfOk result (λ text. string_bytes text ≡ fib_text error.now) }
{
    match *error {
        FibError::TooMany => in_row(alloc, "20 TooMany", 0),
        FibError::TooLong => String::from_str(alloc, "2 TooLong"),
        FibError::Memory => Ok(String::new(alloc)),
    }
}

/// The number and name of a difference, the flow's name, and what each snapshot says of it.
#[tactic(auto, unfolding(crate::specs::Refusal::differs_text))]
fn differs_text(alloc: Global, before: &FlowClass, after: &FlowClass) -> Result<Vec<u8>, AllocError>
    ensures { IfOk result (λ text. text.items ≡ differs_text before.now after.now) }
{
    let mut text = Vec::new(alloc);
    text.extend_from_slice(b"21 FlowDiffers ")?;
    text.extend_from_slice(before.name.as_bytes())?;
    push_class(alloc, &mut text, before)?;
    push_class(alloc, &mut text, after)?;
    Ok(text)
}

/// Appends the destination, the source and the class of a flow.
#[tactic(auto, unfolding(crate::specs::Refusal::class_text))]
fn push_class(alloc: Global, text: &mut Vec<u8>, flow: &FlowClass) -> Result<(), AllocError>
    ensures { OnOk result (text.new.items ≡ text.old.items ++ class_text flow.now) }
{
    let destination = flow.dst.text(alloc)?;
    let source = flow.src.text(alloc)?;
    text.extend_from_slice(b" dst ")?;
    text.extend_from_slice(destination.as_slice())?;
    text.extend_from_slice(b" src ")?;
    text.extend_from_slice(source.as_slice())?;
    text.extend_from_slice(b" class ")?;
    text.extend_from_slice(flow.class.as_bytes())?;
    Ok(())
}
