//! The bundles: two parts, and the pair of channels between them.

ghost use Rattle.std.specs.Prelude.{◌≡◌, IfOk, Some};
ghost use Rattle.toml.specs.Data.{table};
ghost use Rattle.toml.specs.Parse.{parse_document};
ghost use Rattle.toml.specs.View.{view, table_view};
ghost use Rattle.workload.specs.Documents.{far_tile, there_path, back_path, part_table, channel_table, pair_table, bundle_document};

use crate::drawn::Drawn;
use crate::platform::TILES;
use crate::programs::{image_text, receiving_words, sending_words};
use crate::tables::{document_text, put_array, put_number, put_numbers, put_table, put_text};
use soc_base::{NoMemory, Text};
use std::alloc::Global;
use toml::{Table, Value};

// A part on a tile that runs a program and traces the rows of one kind. Its partition slot gives its region of
// 256 bytes and its port.
fn part(alloc: Global, tile: u8, slot: u8, kind: &str, words: &[u32]) -> Result<Value, NoMemory>
    ensures { IfOk result (λ part. view part ≡ table (part_table tile slot kind.now words.now)) }
{
    let mut part = Table::new(alloc);
    put_number(alloc, &mut part, "tile", u32::from(tile))?;
    put_numbers(alloc, &mut part, "slots", &[slot])?;
    put_number(alloc, &mut part, "base", 256 * u32::from(slot))?;
    put_number(alloc, &mut part, "len", 256)?;
    put_number(alloc, &mut part, "entry", 0)?;
    put_number(alloc, &mut part, "trace", 256)?;
    put_numbers(alloc, &mut part, "ports", &[slot])?;
    let kind = Value::string(alloc, kind)?;
    put_array(alloc, &mut part, "kinds", vec![in alloc; kind]?)?;
    put_text(alloc, &mut part, "image", image_text(alloc, words)?)?;
    Ok(Value::Table(part))
}

// The tile of the second part.
fn far_tile(drawn: Drawn) -> u8
    ensures { result ≡ far_tile drawn }
{
    ((u16::from(drawn.tile) + u16::from(drawn.hops)) % u16::from(TILES)) as u8
}

// The links from the first part's tile to the second's, in order.
#[tactic(auto, using(crate::proofs::Ranges::range_more))]
fn there_path(alloc: Global, drawn: Drawn) -> Result<Vec<u8>, NoMemory>
    ensures { IfOk result (λ path. path.items ≡ there_path drawn) }
{
    let mut path = Vec::new(alloc);
    for hop in 0..drawn.hops {
        let link = (u16::from(drawn.tile) + u16::from(hop)) % u16::from(TILES);
        path.push(link as u8)?;
    }
    Ok(path)
}

// The links from the second part's tile back to the first's, in order.
#[tactic(auto, using(crate::proofs::Ranges::range_more))]
fn back_path(alloc: Global, drawn: Drawn) -> Result<Vec<u8>, NoMemory>
    ensures { IfOk result (λ path. path.items ≡ back_path drawn) }
{
    let mut path = Vec::new(alloc);
    for hop in 0..drawn.hops {
        let tile = (u16::from(drawn.tile) + u16::from(drawn.hops) - 1 - u16::from(hop))
            % u16::from(TILES);
        path.push(TILES + tile as u8)?;
    }
    Ok(path)
}

// A channel over links that injects in one slot.
fn channel(alloc: Global, path: &[u8], slot: u8) -> Result<Table, NoMemory>
    ensures { IfOk result (λ channel. table_view channel ≡ channel_table path.now slot) }
{
    let mut channel = Table::new(alloc);
    put_numbers(alloc, &mut channel, "path", path)?;
    put_numbers(alloc, &mut channel, "slots", &[slot])?;
    Ok(channel)
}

// The pair of channels between the two parts.
fn pair(alloc: Global, drawn: Drawn) -> Result<Value, NoMemory>
    ensures { IfOk result (λ pair. view pair ≡ table (pair_table drawn)) }
{
    let there = channel(alloc, there_path(alloc, drawn)?.as_slice(), drawn.there)?;
    let back = channel(alloc, back_path(alloc, drawn)?.as_slice(), drawn.back)?;
    let mut pair = Table::new(alloc);
    put_numbers(alloc, &mut pair, "a", &[drawn.tile, drawn.slot])?;
    put_numbers(alloc, &mut pair, "b", &[far_tile(drawn), drawn.slot])?;
    put_table(alloc, &mut pair, "there", there)?;
    put_table(alloc, &mut pair, "back", back)?;
    Ok(Value::Table(pair))
}

// A bundle as a document.
#[tactic(auto, unfolding(crate::specs::Documents::bundle_document))]
fn bundle_table(alloc: Global, session: u8, drawn: Drawn) -> Result<Table, NoMemory>
    ensures { IfOk result (λ bundle. table_view bundle ≡ bundle_document session drawn) }
{
    let sending = sending_words(session, drawn.words);
    let sender = part(alloc, drawn.tile, drawn.slot, "send", &sending)?;
    let receiving = receiving_words(drawn.words);
    let receiver = part(alloc, far_tile(drawn), drawn.slot, "word", &receiving)?;
    let pair = pair(alloc, drawn)?;
    let mut bundle = Table::new(alloc);
    put_number(alloc, &mut bundle, "version", 1)?;
    put_array(
        alloc,
        &mut bundle,
        "part",
        vec![in alloc; sender, receiver]?,
    )?;
    put_array(alloc, &mut bundle, "pair", vec![in alloc; pair]?)?;
    Ok(bundle)
}

/// Makes the text of the bundle file of a load of a session.
#[tactic(auto, using(crate::proofs::Depths::bundle_depth))]
pub fn bundle_text(alloc: Global, session: u8, drawn: Drawn) -> Result<Text, NoMemory>
    ensures { IfOk result (λ text. parse_document text ≡ Some (bundle_document session drawn)) }
{
    let bundle = bundle_table(alloc, session, drawn)?;
    document_text(alloc, &bundle)
}
