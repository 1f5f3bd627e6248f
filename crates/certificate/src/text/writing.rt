// Writes certificates.
ghost use Rattle.std.specs.Prelude.{◌≡◌, ◌++◌, codes, decimal, length, IfOk};
ghost use Rattle.span.specs.Texts.{id_text};
ghost use Rattle.std.specs.List.{All};
ghost use Rattle.mesh_graph.specs.Groups.{IsAscending, ids};
ghost use Rattle.certificate.specs.Grammar.{certificate_in, outline_of, slot_bytes};
ghost use Rattle.certificate.specs.Text.{IsReadable, IsWritable, certificate_text, entry_line, id_line, list_text, pair_line};

use super::version::Version;
use crate::certificate::Certificate;
use itoa::Buffer;
use mesh_graph::Entry;
use span::names::{Class, SpanId};
use std::alloc::{AllocError, Global};

/// The text of a certificate, which [`read`](crate::read) reads again. It is of version 2 if each
/// serial is below [`TEXT_SPANS`](crate::TEXT_SPANS) and each class of 16, 64 or 256 bytes a slot,
/// and else of version 3.
///
/// # Errors
///
/// `AllocError` if memory runs out.
pub fn write(alloc: Global, certificate: &Certificate) -> Result<Vec<u8>, AllocError>
    requires { IsWritable certificate.now }
    ensures text { IfOk result (λ text. text.items ≡ certificate_text certificate.now) }

    // What is written is read again.
    ensures read_again { IfOk result (λ text. certificate_in text.items
        ≡ Ok (outline_of certificate.now)) }
{
    let text = text_of(alloc, certificate)?;
    Ok(text)
}

#[tactic(auto, unfolding(crate::specs::Text::certificate_text))]
fn text_of(alloc: Global, certificate: &Certificate) -> Result<Vec<u8>, AllocError>
    ensures text { IfOk result (λ text. text.items ≡ certificate_text certificate.now) }
    ensures abandoned { IfOk result (λ _. All IsReadable certificate.now.snapshot.abandoned) }
    ensures owned { IfOk result (λ _. All IsReadable certificate.now.snapshot.owned) }
    ensures abandoned_ascending { IfOk result (λ _. IsAscending
        (ids certificate.now.snapshot.abandoned)) }
    ensures owned_ascending { IfOk result (λ _. IsAscending (ids certificate.now.snapshot.owned)) }
{
    let mut text = Vec::from_slice(alloc, Version::of(certificate).opening().as_bytes())?;
    text.extend_from_slice(b"\n")?;
    write_entries(&mut text, b"abandoned", certificate.snapshot.abandoned())?;
    write_entries(&mut text, b"owned", certificate.snapshot.owned())?;
    write_pairs(&mut text, certificate.plan.pairs())?;
    write_ids(&mut text, certificate.short.ids())?;
    text.extend_from_slice(b"end\n")?;
    Ok(text)
}

fn write_id(text: &mut Vec<u8>, id: SpanId) -> Result<(), AllocError>
    ensures { IfOk result (λ _. text.new.items ≡ text.old.items ++ id_text id) }
{
    let mut shard = Buffer::new();
    let mut serial = Buffer::new();
    text.extend_from_slice(shard.format(id.shard).as_bytes())?;
    text.extend_from_slice(b".")?;
    text.extend_from_slice(serial.format(id.serial).as_bytes())?;
    Ok(())
}

/// Writes a title and how many lines follow.
fn write_count(text: &mut Vec<u8>, title: &[u8], count: usize) -> Result<(), AllocError>
    ensures { IfOk result (λ _. text.new.items ≡ text.old.items
        ++ (title.now ++ (codes " " ++ (decimal count ++ codes "\n")))) }
{
    let mut buffer = Buffer::new();
    text.extend_from_slice(title)?;
    text.extend_from_slice(b" ")?;
    text.extend_from_slice(buffer.format(count).as_bytes())?;
    text.extend_from_slice(b"\n")?;
    Ok(())
}

fn write_entry(text: &mut Vec<u8>, entry: &Entry) -> Result<(), AllocError>
    ensures line { IfOk result (λ _. text.new.items ≡ text.old.items ++ entry_line entry.now) }
    ensures readable { IfOk result (λ _. IsReadable entry.now) }
{
    let mut bytes = Buffer::new();
    write_id(text, entry.id)?;
    text.extend_from_slice(b" ")?;
    text.extend_from_slice(bytes.format(slot_bytes(entry.class)).as_bytes())?;
    text.extend_from_slice(b" ")?;
    text.extend_from_slice(&entry.occupied.to_hex())?;
    text.extend_from_slice(b"\n")?;
    Ok(())
}

/// The bytes of a slot of the class.
fn slot_bytes(class: Class) -> usize
    ensures { result ≡ slot_bytes class }
{
    16 * class.words()
}

fn write_pair(text: &mut Vec<u8>, pair: (SpanId, SpanId)) -> Result<(), AllocError>
    ensures { IfOk result (λ _. text.new.items ≡ text.old.items ++ pair_line pair) }
{
    write_id(text, pair.0)?;
    text.extend_from_slice(b" ")?;
    write_id(text, pair.1)?;
    text.extend_from_slice(b"\n")?;
    Ok(())
}

fn write_id_line(text: &mut Vec<u8>, id: SpanId) -> Result<(), AllocError>
    ensures { IfOk result (λ _. text.new.items ≡ text.old.items ++ id_line id) }
{
    write_id(text, id)?;
    text.extend_from_slice(b"\n")?;
    Ok(())
}

fn write_entries(text: &mut Vec<u8>, title: &[u8], entries: &[Entry]) -> Result<(), AllocError>
    ensures lines { IfOk result (λ _. text.new.items ≡ text.old.items
        ++ list_text title.now entry_line entries.now) }
    ensures readable { IfOk result (λ _. All IsReadable entries.now) }
{
    write_count(text, title, entries.len())?;
    for entry in entries {
        write_entry(text, entry)?;
    }
    Ok(())
}

fn write_pairs(text: &mut Vec<u8>, pairs: &[(SpanId, SpanId)]) -> Result<(), AllocError>
    ensures { IfOk result (λ _. text.new.items ≡ text.old.items
        ++ list_text (codes "folds") pair_line pairs.now) }
{
    write_count(text, b"folds", pairs.len())?;
    for pair in pairs {
        write_pair(text, *pair)?;
    }
    Ok(())
}

fn write_ids(text: &mut Vec<u8>, ids: &[SpanId]) -> Result<(), AllocError>
    ensures { IfOk result (λ _. text.new.items ≡ text.old.items
        ++ list_text (codes "short") id_line ids.now) }
{
    write_count(text, b"short", ids.len())?;
    for id in ids {
        write_id_line(text, *id)?;
    }
    Ok(())
}
