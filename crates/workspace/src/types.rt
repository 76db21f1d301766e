//! The lines of `types`.
ghost use Rattle.std.specs.Prelude.{◌≡◌, ◌++◌, OnOk, IfOk, decimal};
ghost use Rattle.std.specs.List.{flat_map};
ghost use Rattle.workspace.specs.Types as spec;

use bpf_verify::{Operator, Tag};
use itoa::Buffer;
use std::alloc::{AllocError, Global};

/// Adds a number in decimal digits.
fn add_number(text: &mut Vec<u8>, number: u64) -> Result<(), AllocError>
    ensures { OnOk result (text.new.items ≡ text.old.items ++ decimal number) }
{
    let mut buffer = Buffer::new();
    text.extend_from_slice(buffer.format(number).as_bytes())
}

/// Adds a space and what is known of a register.
fn add_tag(text: &mut Vec<u8>, tag: Tag) -> Result<(), AllocError>
    ensures { OnOk result (text.new.items ≡ text.old.items ++ spec.tag_text tag) }
{
    match tag {
        Tag::Unset => text.extend_from_slice(b" u"),
        Tag::Number => text.extend_from_slice(b" n"),
        Tag::Mixed => text.extend_from_slice(b" m"),
        Tag::Place(distance) => {
            text.extend_from_slice(b" p")?;
            if distance < 0 {
                text.extend_from_slice(b"-")?;
            }
            add_number(text, u64::from(distance.unsigned_abs()))
        }
    }
}

/// Adds what is known of R0 to R10.
fn add_tags(text: &mut Vec<u8>, tags: &[Tag; 11]) -> Result<(), AllocError>
    ensures { OnOk result (text.new.items ≡ text.old.items ++ flat_map spec.tag_text tags.now) }
{
    for tag in tags {
        add_tag(text, *tag)?;
    }
    Ok(())
}

/// Adds the line of the instruction at a slot, if one begins there.
fn add_slot(text: &mut Vec<u8>, operator: &Operator, slot: u64) -> Result<(), AllocError>
    ensures { OnOk result (text.new.items ≡ text.old.items ++ spec.slot_text operator.now slot) }
{
    if operator.program().insn_at(slot).is_none() {
        return Ok(());
    }
    add_number(text, slot)?;
    match operator.typing(slot) {
        Some(tags) => add_tags(text, &tags)?,
        None => text.extend_from_slice(b" -")?,
    }
    text.extend_from_slice(b"\n")
}

/// The lines of `types`: for each instruction its slot and what is known of R0 to R10 before it.
///
/// # Errors
///
/// There is no memory for the text.
pub fn types_text(alloc: Global, operator: &Operator) -> Result<Vec<u8>, AllocError>
    ensures { IfOk result (λ text. text.items ≡ spec.types_text operator.now) }
{
    let mut text = Vec::new(alloc);
    for slot in 0..operator.program().slots() {
        add_slot(&mut text, operator, slot)?;
    }
    Ok(text)
}
