//! The text of a snapshot, written flow after flow.

ghost use Rattle.std.specs.Prelude.{◌≡◌, ◌≢◌, ◌<◌, ◌^◌, ◌++◌, Err, IfOk, OnOk, length};
ghost use Rattle.rela_fib.specs.Steps.{IsMatched};
ghost use Rattle.rela_fib.specs.Text.{names_of};
ghost use Rattle.rela_fib.specs.Writing.{AddsFlow, AddsFlows, HasManySteps, HasManyStepsIn, IsDrawing, IsWhole, IsWholeTooLong, array_text, drawn_flow, end_text, ends_text, middle_text};

use crate::devices::Devices;
use crate::drawing::{Drawing, few_steps};
use crate::error::FibError;
use crate::graph::GraphText;
use crate::pieces::{push_array, push_comma, push_key, push_names, push_numbers, push_plain};
use rela_flows::{Ipv4Prefix, Prefix};
use rela_locations::Locations;
use rela_names::Symbol;
use std::alloc::{AllocError, Global};

/// The greatest number of bytes of a snapshot.
const MAX_BYTES: usize = 33_554_432;

/// The text of the snapshot that has a flow for each of these classes, which all end in `end`.
/// Time: linear in the text, a choice of each device for each class, and a pass over the nodes
/// where one of these changes or the text is too long already.
///
/// # Errors
///
/// `TooMany` where the graph of a class has more than 100,000 edges; else `TooLong` where the text
/// would have more than 33,554,432 bytes; `Memory` where memory runs out.
pub(crate) fn text_of(
    alloc: Global,
    devices: &Devices,
    classes: &[Ipv4Prefix],
    end: &[u8],
) -> Result<Vec<u8>, FibError>
    requires matched { IsMatched devices.now }
    requires few { length devices.now.of_nodes.items < 2 ^ 32 }
    ensures text { IfOk result (λ text. IsWhole devices.now end.now classes.now text.items) }
    ensures too_many { result ≡ Err FibError.TooMany → HasManyStepsIn devices.now classes.now }
    ensures too_long { result ≡ Err FibError.TooLong
        → IsWholeTooLong devices.now end.now classes.now }
{
    let mut text = Vec::new(alloc);
    text.extend_from_slice(b"{\"flows\":[")?;
    push_flows(alloc, &mut text, devices, classes, end)?;
    text.extend_from_slice(b"],\"version\":1}\n")?;
    if text.len() > MAX_BYTES {
        return Err(FibError::TooLong);
    }
    Ok(text)
}

/// Adds the flows of these classes, until the text is longer than a snapshot may be.
///
/// # Errors
///
/// `TooMany` where the graph of a class has more than 100,000 edges, also past that length;
/// `Memory`. Never `TooLong`.
fn push_flows(
    alloc: Global,
    text: &mut Vec<u8>,
    devices: &Devices,
    classes: &[Ipv4Prefix],
    end: &[u8],
) -> Result<(), FibError>
    requires matched { IsMatched devices.now }
    requires few { length devices.now.of_nodes.items < 2 ^ 32 }
    ensures flows { OnOk result
        (AddsFlows devices.now end.now classes.now text.old.items text.new.items) }
    ensures too_many { result ≡ Err FibError.TooMany → HasManyStepsIn devices.now classes.now }
    ensures not_long { result ≢ Err FibError.TooLong }
{
    let mut drawing = Drawing::new(alloc, devices)?;
    for (place, class) in classes.iter().enumerate() {
        push_class(alloc, text, devices, &mut drawing, *class, place > 0, end)?;
    }
    Ok(())
}

/// Adds the flow of a class, unless the text is longer than a snapshot may be. A comma stands
/// before it where it comes `later` than the first.
///
/// # Errors
///
/// `TooMany` where the graph of the class has more than 100,000 edges; `Memory`. Never `TooLong`.
fn push_class(
    alloc: Global,
    text: &mut Vec<u8>,
    devices: &Devices,
    drawing: &mut Drawing,
    class: Ipv4Prefix,
    later: bool,
    end: &[u8],
) -> Result<(), FibError>
    requires matched { IsMatched devices.now }
    requires few { length devices.now.of_nodes.items < 2 ^ 32 }
    requires drawing { IsDrawing devices.now drawing.old }
    ensures flow { OnOk result
        (AddsFlow devices.now end.now class later text.old.items text.new.items) }
    ensures drawing { OnOk result (IsDrawing devices.now drawing.new) }
    ensures too_many { result ≡ Err FibError.TooMany → HasManySteps devices.now class }
    ensures not_long { result ≢ Err FibError.TooLong }
{
    drawing.choose(devices, class.address);
    if text.len() > MAX_BYTES {
        few_steps(alloc, devices, drawing.choices.as_slice())?;
        return Ok(());
    }
    drawing.draw(alloc, devices)?;
    push_comma(text, later)?;
    push_flow(alloc, text, class, &drawing.graph, end)?;
    Ok(())
}

/// Adds a flow, of which `end` are the nodes and the starts.
fn push_flow(
    alloc: Global,
    text: &mut Vec<u8>,
    class: Ipv4Prefix,
    graph: &GraphText,
    end: &[u8],
) -> Result<(), AllocError>
    ensures { OnOk result (text.new.items
        ≡ text.old.items ++ drawn_flow end.now class graph.now) }
{
    push_ends(text, graph)?;
    push_middle(alloc, text, class, graph.edges.as_slice())?;
    text.extend_from_slice(end)?;
    Ok(())
}

/// Adds the brace that begins a flow, and the lists of nodes that deliver and that drop.
fn push_ends(text: &mut Vec<u8>, graph: &GraphText) -> Result<(), AllocError>
    ensures { OnOk result (text.new.items ≡ text.old.items
        ++ ends_text (array_text graph.now.delivered.items) (array_text graph.now.dropped.items)) }
{
    text.push(b'{')?;
    push_key(text, false, b"delivered")?;
    push_array(text, graph.delivered.as_slice())?;
    push_key(text, true, b"dropped")?;
    push_array(text, graph.dropped.as_slice())?;
    Ok(())
}

/// Adds the class, as the `dst` and the name of a flow, and the edges.
fn push_middle(
    alloc: Global,
    text: &mut Vec<u8>,
    class: Ipv4Prefix,
    edges: &[u8],
) -> Result<(), AllocError>
    ensures { OnOk result (text.new.items
        ≡ text.old.items ++ middle_text class (array_text edges.now)) }
{
    let name = Prefix::V4(class).text(alloc)?;
    push_key(text, true, b"dst")?;
    push_plain(text, name.as_slice())?;
    push_key(text, true, b"edges")?;
    push_array(text, edges)?;
    push_key(text, true, b"name")?;
    push_plain(text, name.as_slice())?;
    Ok(())
}

/// What ends each flow: the names of its nodes, the indexes of its starts, and the brace.
///
/// # Errors
///
/// Only where memory is wanted.
pub(crate) fn end_of(
    alloc: Global,
    locations: &Locations,
    nodes: &[Symbol],
    starts: &[u32],
) -> Result<Vec<u8>, AllocError>
    ensures { IfOk result (λ end. end.items
        ≡ end_text (names_of locations.now nodes.now) starts.now) }
{
    let mut end = Vec::new(alloc);
    push_key(&mut end, true, b"nodes")?;
    push_names(&mut end, locations, nodes)?;
    push_key(&mut end, true, b"starts")?;
    push_numbers(&mut end, starts)?;
    end.push(b'}')?;
    Ok(end)
}
