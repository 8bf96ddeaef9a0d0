//! The pieces of compact JSON (RFC 8259) that the texts are written of.

ghost use Rattle.std.specs.Prelude.{◌≡◌, ◌++◌, OnOk};
ghost use Rattle.serde_json.specs.Written.{comma_if, compact_text};
ghost use Rattle.rela_demo.specs.Names.{device_name};
ghost use Rattle.rela_demo.specs.Text.{edge_data, edges_data, numbers_data};
ghost use Rattle.rela_demo.specs.Pieces.{array_text, device_text, node_text};

use crate::numbers::{push_number, push_three_digits};
use rela_graph::Link;
use std::alloc::AllocError;

/// Adds a comma, if an entry stands before.
fn push_comma(text: &mut Vec<u8>, later: bool) -> Result<(), AllocError>
    ensures { OnOk result (text.new.items ≡ text.old.items ++ comma_if later) }
{
    if later {
        text.push(b',')?;
    }
    Ok(())
}

/// Adds an array of numbers.
pub(crate) fn push_numbers(text: &mut Vec<u8>, numbers: &[u32]) -> Result<(), AllocError>
    ensures { OnOk result (text.new.items
        ≡ text.old.items ++ compact_text (numbers_data numbers.now)) }
{
    text.push(b'[')?;
    for (place, number) in numbers.iter().enumerate() {
        push_comma(text, place > 0)?;
        push_number(text, *number)?;
    }
    text.push(b']')?;
    Ok(())
}

/// Adds an edge as an array of two numbers.
fn push_edge(text: &mut Vec<u8>, edge: Link) -> Result<(), AllocError>
    ensures { OnOk result (text.new.items ≡ text.old.items ++ compact_text (edge_data edge)) }
{
    text.push(b'[')?;
    push_number(text, edge.a)?;
    text.push(b',')?;
    push_number(text, edge.b)?;
    text.push(b']')?;
    Ok(())
}

/// Adds an array of edges.
pub(crate) fn push_edges(text: &mut Vec<u8>, edges: &[Link]) -> Result<(), AllocError>
    ensures { OnOk result (text.new.items
        ≡ text.old.items ++ compact_text (edges_data edges.now)) }
{
    text.push(b'[')?;
    for (place, edge) in edges.iter().enumerate() {
        push_comma(text, place > 0)?;
        push_edge(text, *edge)?;
    }
    text.push(b']')?;
    Ok(())
}

/// Adds the name of a device.
pub(crate) fn push_device_name(text: &mut Vec<u8>, label: (u8, u32)) -> Result<(), AllocError>
    ensures { OnOk result (text.new.items ≡ text.old.items ++ device_name label) }
{
    text.push(label.0)?;
    push_three_digits(text, label.1)
}

/// Adds the name of a device's interface, in quotes.
fn push_node(text: &mut Vec<u8>, label: (u8, u32)) -> Result<(), AllocError>
    ensures { OnOk result (text.new.items ≡ text.old.items ++ node_text label) }
{
    text.push(b'"')?;
    push_device_name(text, label)?;
    text.extend_from_slice(b":0\"")
}

/// Adds an array of the names of the interfaces of these devices.
pub(crate) fn push_nodes(text: &mut Vec<u8>, labels: &[(u8, u32)]) -> Result<(), AllocError>
    ensures { OnOk result (text.new.items ≡ text.old.items ++ array_text node_text labels.now) }
{
    text.push(b'[')?;
    for (place, label) in labels.iter().enumerate() {
        push_comma(text, place > 0)?;
        push_node(text, *label)?;
    }
    text.push(b']')?;
    Ok(())
}

/// Adds the object of a device, with its interface and its name.
fn push_device(text: &mut Vec<u8>, label: (u8, u32)) -> Result<(), AllocError>
    ensures { OnOk result (text.new.items ≡ text.old.items ++ device_text label) }
{
    text.extend_from_slice(b"{\"interfaces\":[")?;
    push_node(text, label)?;
    text.extend_from_slice(b"],\"name\":\"")?;
    push_device_name(text, label)?;
    text.extend_from_slice(b"\"}")
}

/// Adds an array of the objects of these devices.
pub(crate) fn push_devices(text: &mut Vec<u8>, labels: &[(u8, u32)]) -> Result<(), AllocError>
    ensures { OnOk result (text.new.items ≡ text.old.items ++ array_text device_text labels.now) }
{
    text.push(b'[')?;
    for (place, label) in labels.iter().enumerate() {
        push_comma(text, place > 0)?;
        push_device(text, *label)?;
    }
    text.push(b']')?;
    Ok(())
}
