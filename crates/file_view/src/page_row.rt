//! The line of a page.

ghost use Rattle.std.specs.Prelude.{◌≡◌, ◌++◌, [], OnOk, codes, if◌then◌else◌};
ghost use Rattle.std.specs.String.{string_bytes};
ghost use Rattle.file_view.specs.declared.lines.Form.TheVariants.{Json, Words};
ghost use Rattle.file_view.specs.PageText.{page_json, page_line, slot_json, slot_text};
ghost use Rattle.file_view.specs.PageText.{slots_json, slots_text, with_commas};

use crate::lines::Form;
use page_core::Page;
use std::alloc::AllocError;

/// Puts the line of a page behind a text: its number, its LSN, and each slot that is not 0.
pub fn put_page(text: &mut String, form: Form, page: &Page) -> Result<(), AllocError>
    ensures words { form ≡ Words → OnOk result
        (string_bytes text.new ≡ string_bytes text.old ++ (page_line page.now ++ codes "\n")) }
    ensures json { form ≡ Json → OnOk result
        (string_bytes text.new ≡ string_bytes text.old ++ (page_json page.now ++ codes "\n")) }
{
    match form {
        Form::Words => put_words(text, page),
        Form::Json => put_json(text, page),
    }
}

fn put_words(text: &mut String, page: &Page) -> Result<(), AllocError>
    ensures { OnOk result
        (string_bytes text.new ≡ string_bytes text.old ++ (page_line page.now ++ codes "\n")) }
{
    let (number, lsn) = (page.number.0, page.lsn.0);
    write!(text, "page {number} lsn {lsn}")?;
    put_slots(text, &page.slots)?;
    text.push_str("\n")
}

/// Puts those slots behind a text that are not 0.
fn put_slots(text: &mut String, slots: &[u64]) -> Result<(), AllocError>
    ensures { OnOk result
        (string_bytes text.new ≡ string_bytes text.old ++ slots_text 0 slots.now) }
{
    for (slot, number) in slots.iter().enumerate() {
        put_slot(text, slot, *number)?;
    }
    Ok(())
}

fn put_slot(text: &mut String, slot: usize, number: u64) -> Result<(), AllocError>
    ensures { OnOk result
        (string_bytes text.new ≡ string_bytes text.old ++ slot_text slot number) }
{
    if number == 0 {
        return Ok(());
    }
    write!(text, " {slot}={number}")
}

fn put_json(text: &mut String, page: &Page) -> Result<(), AllocError>
    ensures { OnOk result
        (string_bytes text.new ≡ string_bytes text.old ++ (page_json page.now ++ codes "\n")) }
{
    let (number, lsn) = (page.number.0, page.lsn.0);
    write!(text, "{{\"page\":{number},\"lsn\":{lsn},\"slots\":[")?;
    put_slots_json(text, &page.slots)?;
    text.push_str("]}\n")
}

/// Puts those slots behind a text that are not 0, with a comma between each two.
fn put_slots_json(text: &mut String, slots: &[u64]) -> Result<(), AllocError>
    ensures { OnOk result (string_bytes text.new
        ≡ string_bytes text.old ++ with_commas (slots_json 0 slots.now)) }
{
    let mut is_first = true;
    for (slot, number) in slots.iter().enumerate() {
        if *number != 0 {
            put_slot_json(text, is_first, slot, *number)?;
            is_first = false;
        }
    }
    Ok(())
}

fn put_slot_json(
    text: &mut String,
    is_first: bool,
    slot: usize,
    number: u64,
) -> Result<(), AllocError>
    ensures { OnOk result (string_bytes text.new ≡ string_bytes text.old
        ++ ((if is_first then [] else codes ",") ++ slot_json slot number)) }
{
    let comma = if is_first { "" } else { "," };
    write!(text, "{comma}{{\"slot\":{slot},\"number\":{number}}}")
}
