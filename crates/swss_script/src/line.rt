// Lines of a script, by their words.
ghost use Rattle.std.specs.Prelude.{◌≡◌, ◌==◌, ◌++◌, ◌∷◌, false, codes, IfOk, option_map};
ghost use Rattle.std.specs.List.{starts_with};
ghost use Rattle.swss_types.specs.VrfNames.{vrf_name_of};
ghost use Rattle.swss_types.specs.declared.vrf.Vrf.TheVariants as vrf;
ghost use Rattle.swss_script.specs.Line.{word_alone, chip_head, del_line, fail_line, forward_in, image_line, is_after, is_block, is_name, json_line, kind_of_word, line_by, script_line_of, port_head, producer_line, set_line, show_line, show_of, shown};
ghost use Rattle.swss_script.specs.Words.{words_in};

use crate::batch::read_batch;
use crate::fields::{copy_text, read_fields, set_fields};
use crate::words::{next_word, one_word, three_words, two_words};
use crate::{Fail2, Show, Writes};
use row_store::Rows;
use sai_types::Kind;
use std::alloc::Global;
use swss_image::{ImageFault, key_in_word, load};
use swss_types::{Ip, OutOfMemory, Text, Vrf, VrfName, read_number};
use table_schema::Write;

/// The greatest capacity that a script sets.
const MOST_CAPACITY: u32 = 1_000_000;

/// The greatest number of a failing call.
const MOST_CALL: u32 = 1_000_000_000;

/// A line of a script.
#[derive(Debug, Drop)]
pub enum Line {
    /// Nothing, or a comment.
    Blank,
    /// A line of the head, or None where the words behind its first are wrong.
    Head(Option<HeadLine>),
    /// A section of this producer begins.
    Producer(Text),
    /// A write.
    Put(Write),
    /// A batch, or None where it is none.
    Batch(Option<Writes>),
    /// A batch begins that ends at a line of its own.
    Block,
    /// The service restarts.
    Restart,
    /// The round ends.
    Settle,
    /// Something is shown.
    Shown(Show),
    /// A line that is none of these.
    Other,
}

/// A line of the head.
#[derive(Debug, Drop)]
pub enum HeadLine {
    /// A port of the plan: its name, a space and its lanes.
    Port(Text),
    /// The capacity of a kind.
    Chip(Kind, u64),
    /// A chip call fails.
    Fail(Fail2),
    /// The rows of an image, or the fault that it has.
    Image(Result<Rows, ImageFault>),
}

/// Whether a block begins with a line.
pub fn is_block(line: &Line) -> bool
    ensures { result ≡ is_block line.now }
{
    matches!(line, Line::Block)
}

/// The line that a text is.
pub fn read_line(alloc: Global, text: &str) -> Result<Line, OutOfMemory>
    ensures { IfOk result (λ line. line ≡ script_line_of text.now) }
{
    let Some((first, behind)) = next_word(text) else {
        return Ok(Line::Blank);
    };
    if first.as_bytes().starts_with(b"#") {
        return Ok(Line::Blank);
    }
    read_words(alloc, first, behind)
}

/// The line of a first word and the text behind it.
fn read_words(alloc: Global, first: &str, behind: &str) -> Result<Line, OutOfMemory>
    requires { starts_with ◌==◌ first.now (codes "#") ≡ false }
    ensures { IfOk result (λ line. line ≡ line_by first.now (words_in behind.now) behind.now) }
{
    match first {
        "port" => Ok(Line::Head(read_port(alloc, behind)?)),
        "chip" => Ok(Line::Head(read_chip(behind))),
        "fail" => Ok(Line::Head(read_fail(behind))),
        "image" => Ok(Line::Head(read_image(alloc, behind)?)),
        "producer" => read_producer(alloc, behind),
        "set" => read_set(alloc, behind),
        "del" => read_del(alloc, behind),
        "json" => read_json(alloc, behind),
        "restart" => Ok(word_alone(Line::Restart, behind)),
        "settle" => Ok(word_alone(Line::Settle, behind)),
        "show" => Ok(read_show(behind)),
        _ => Ok(Line::Other),
    }
}

/// The words behind `port`: a name and lanes.
fn read_port(alloc: Global, text: &str) -> Result<Option<HeadLine>, OutOfMemory>
    ensures { IfOk result (λ line. line ≡ port_head (words_in text.now)) }
{
    match two_words(text) {
        Some((name, lanes)) => Ok(Some(HeadLine::Port(join(alloc, name, lanes)?))),
        None => Ok(None),
    }
}

/// Two words and a space between them.
fn join(alloc: Global, first: &str, second: &str) -> Result<Text, OutOfMemory>
    ensures { IfOk result (λ text. text ≡ first.now ++ 32 ∷ second.now) }
{
    let mut text = String::from_str(alloc, first)?;
    text.push_str(" ")?;
    text.push_str(second)?;
    copy_text(alloc, text.as_str())
}

/// The words behind `chip`: a kind and a capacity.
fn read_chip(text: &str) -> Option<HeadLine>
    ensures { result ≡ chip_head (words_in text.now) }
{
    let (kind, most) = two_words(text)?;
    let kind = read_kind(kind)?;
    let most = read_number(most.as_bytes(), MOST_CAPACITY)?;
    Some(HeadLine::Chip(kind, u64::from(most)))
}

/// The kind of a word.
fn read_kind(word: &str) -> Option<Kind>
    ensures { result ≡ kind_of_word word.now }
{
    match word {
        "PORT" => Some(Kind::Port),
        "VLAN" => Some(Kind::Vlan),
        "VIRTUAL_ROUTER" => Some(Kind::VirtualRouter),
        "BRIDGE_PORT" => Some(Kind::BridgePort),
        "VLAN_MEMBER" => Some(Kind::VlanMember),
        "RIF" => Some(Kind::Rif),
        "OWN_ADDRESS" => Some(Kind::OwnAddress),
        "NEIGHBOR" => Some(Kind::Neighbor),
        "NEXT_HOP" => Some(Kind::NextHop),
        "GROUP" => Some(Kind::Group),
        "GROUP_MEMBER" => Some(Kind::GroupMember),
        "ROUTE" => Some(Kind::Route),
        _ => None,
    }
}

/// The words behind `fail`: a number from 1, and `before` or `after`.
fn read_fail(text: &str) -> Option<HeadLine>
    ensures { result ≡ fail_line (words_in text.now) }
{
    let (number, when) = two_words(text)?;
    let at = read_number(number.as_bytes(), MOST_CALL)?;
    let after = read_after(when)?;
    if at > 0 {
        Some(HeadLine::Fail(Fail2 {
            at: u64::from(at),
            after,
        }))
    } else {
        None
    }
}

/// Whether a failing call takes effect before it fails.
fn read_after(word: &str) -> Option<bool>
    ensures { result ≡ is_after word.now }
{
    match word {
        "before" => Some(false),
        "after" => Some(true),
        _ => None,
    }
}

/// The text behind `image`.
fn read_image(alloc: Global, text: &str) -> Result<Option<HeadLine>, OutOfMemory>
    ensures { IfOk result (λ line. line ≡ image_line (words_in text.now) text.now) }
{
    match next_word(text) {
        Some(_) => Ok(Some(HeadLine::Image(load(alloc, text.as_bytes())?))),
        None => Ok(None),
    }
}

/// The word behind `producer`: a name.
fn read_producer(alloc: Global, text: &str) -> Result<Line, OutOfMemory>
    ensures { IfOk result (λ line. line ≡ producer_line (words_in text.now)) }
{
    match one_word(text) {
        Some(name) if is_name(name) => Ok(Line::Producer(copy_text(alloc, name)?)),
        _ => Ok(Line::Other),
    }
}

/// Whether a word is a producer's name: of letters, digits, `_` and `-`.
fn is_name(word: &str) -> bool
    ensures { result ≡ is_name word.now }
{
    word.as_bytes().iter().all(|byte| byte.is_ascii_alphanumeric()
        || *byte == b'_'
        || *byte == b'-')
}

/// The words behind `set`: a key and its fields.
fn read_set(alloc: Global, text: &str) -> Result<Line, OutOfMemory>
    ensures { IfOk result (λ line. line ≡ set_line (words_in text.now)) }
{
    let Some((word, behind)) = next_word(text) else {
        return Ok(Line::Other);
    };
    let Some(key) = key_in_word(alloc, word)? else {
        return Ok(Line::Other);
    };
    match read_fields(alloc, behind)? {
        Some(fields) => Ok(Line::Put(Write::Set(key, set_fields(alloc, fields)?))),
        None => Ok(Line::Other),
    }
}

/// The word behind `del`: a key.
fn read_del(alloc: Global, text: &str) -> Result<Line, OutOfMemory>
    ensures { IfOk result (λ line. line ≡ del_line (words_in text.now)) }
{
    let Some(word) = one_word(text) else {
        return Ok(Line::Other);
    };
    match key_in_word(alloc, word)? {
        Some(key) => Ok(Line::Put(Write::Del(key))),
        None => Ok(Line::Other),
    }
}

/// The text behind `json`: a batch, or nothing where a block follows.
fn read_json(alloc: Global, text: &str) -> Result<Line, OutOfMemory>
    ensures { IfOk result (λ line. line ≡ json_line (words_in text.now) text.now) }
{
    match next_word(text) {
        Some(_) => Ok(Line::Batch(read_batch(alloc, text.as_bytes())?)),
        None => Ok(Line::Block),
    }
}

/// A line whose first word stands alone.
fn word_alone(line: Line, text: &str) -> Line
    ensures { result ≡ word_alone line (words_in text.now) }
{
    match next_word(text) {
        Some(_) => Line::Other,
        None => line,
    }
}

/// The words behind `show`.
fn read_show(text: &str) -> Line
    ensures { result ≡ show_line (words_in text.now) }
{
    if let Some(word) = one_word(text) {
        return shown(show_of(word));
    }
    if let Some((word, address)) = two_words(text) {
        return shown(forward_in(word, Some(Vrf::Default), address));
    }
    match three_words(text) {
        Some((word, router, address)) => shown(forward_in(word, read_router(router), address)),
        None => Line::Other,
    }
}

/// A line that shows this.
fn shown(what: Option<Show>) -> Line
    ensures { result ≡ shown what }
{
    match what {
        Some(what) => Line::Shown(what),
        None => Line::Other,
    }
}

/// What a word shows.
fn show_of(word: &str) -> Option<Show>
    ensures { result ≡ show_of word.now }
{
    match word {
        "chip" => Some(Show::Chip),
        "tables" => Some(Show::Tables),
        "ignored" => Some(Show::Ignored),
        "waiting" => Some(Show::Waiting),
        "warm" => Some(Show::Warm),
        "ready" => Some(Show::Ready),
        "calls" => Some(Show::Calls),
        "counts" => Some(Show::Counts),
        "image" => Some(Show::Image),
        _ => None,
    }
}

/// The virtual router of a name. The default one has none.
fn read_router(name: &str) -> Option<Vrf>
    ensures { result ≡ option_map vrf.Named (vrf_name_of name.now) }
{
    VrfName::read(name.as_bytes()).map(Vrf::Named)
}

/// The way of an address in a virtual router.
fn forward_in(word: &str, vrf: Option<Vrf>, address: &str) -> Option<Show>
    ensures { result ≡ forward_in word.now vrf address.now }
{
    if word != "forward" {
        return None;
    }
    let vrf = vrf?;
    let ip = Ip::read(address.as_bytes())?;
    Some(Show::Forward(vrf, ip))
}
