// The rules by which a route's row reads.
ghost use Rattle.std.specs.Prelude.{◌≡◌, [], ◌∷◌, codes, ◌≤◌, ◌<◌, ◌==◌, count_by, length, nat_lt, false, true, Ok, Err, IfOk, IfSome, option_map, unwrap_or, MatchResult};
ghost use Rattle.table_schema.specs.Fields.{value_of};
ghost use Rattle.table_schema.specs.RouteRules.{are_blank, are_weights_of, blackhole_of, counts_of, drops_of, field_filled, hops_listed, hop_of_texts, hops_of_texts, hops_with, is_blank_part, is_zero, other_parts, parts_left, route_row_of, target_of_hops, unused, unused_fields, weight_of, weighted_hop};
ghost use Rattle.table_schema.specs.declared.row_hop.RowHop.{RowHop};
ghost use Rattle.swss_types.specs.Parts.{parts_at};
ghost use Rattle.swss_types.specs.VrfNames.{first_part};

use crate::broken::bad;
use crate::key_text::read_on_switch;
use crate::row::BadWhy::{BadValue, CountsDiffer, MissingField, TooManyHops, Unsupported};
use crate::{BadRow, Fields, RouteRow, RowHop, RowHops, field};
use std::alloc::Global;
use swss_types::{Ip, OutOfMemory, Text, cut_at, read_number};

/// How many hops a route lists at most.
pub const MOST_HOPS: usize = 128;

/// Where a route's row sends its packets, or the first rule that it breaks.
pub fn read_route(alloc: Global, fields: &Fields) -> Result<Result<RouteRow, BadRow>, OutOfMemory>
    ensures { IfOk result (λ route. route ≡ route_row_of fields.now) }
{
    if let Some((addresses, names)) = hop_texts_alone(fields) {
        return read_forwarding(alloc, Some(addresses), Some(names), None);
    }
    match read_drops(fields) {
        Ok(true) => Ok(Ok(RouteRow::Drop)),
        Ok(false) => read_forwarding(
            alloc,
            fields.get(b"nexthop"),
            fields.get(b"ifname"),
            fields.get(b"weight"),
        ),
        Err(broken) => Ok(Err(broken)),
    }
}

/// The addresses and the names of a row that has nothing but these, as most routes' have.
fn hop_texts_alone(fields: &Fields) -> Option<(&Text, &Text)>
    ensures { IfSome result (λ texts. fields.now ≡ (codes "ifname", texts.1.now) ∷ (codes "nexthop", texts.0.now) ∷ []) }
{
    let [first, second] = fields.listed()? else {
        return None;
    };
    if first.0.bytes() == b"ifname".as_slice() && second.0.bytes() == b"nexthop".as_slice() {
        return Some((&second.1, &first.1));
    }
    None
}

/// Whether a route drops its packets.
fn read_drops(fields: &Fields) -> Result<bool, BadRow>
    ensures { result ≡ drops_of fields.now }
{
    require_unused(field::NEXTHOP_GROUP, fields.get(b"nexthop_group"))?;
    require_unused(field::MPLS_NH, fields.get(b"mpls_nh"))?;
    require_unused(field::VNI_LABEL, fields.get(b"vni_label"))?;
    require_unused(field::ROUTER_MAC, fields.get(b"router_mac"))?;
    require_unused(field::SEGMENT, fields.get(b"segment"))?;
    read_blackhole(fields.get(b"blackhole"))
}

/// That a field of what the service does not have says nothing.
fn require_unused(field: u8, text: Option<&Text>) -> Result<(), BadRow>
    ensures { result ≡ unused field (option_map (λ t. t.now) text.entry) }
{
    match text {
        Some(text) if !are_blank(text.bytes()) => Err(bad(Unsupported, field)),
        _ => Ok(()),
    }
}

/// Whether all elements of a list are empty or `na`.
fn are_blank(text: &[u8]) -> bool
    ensures { result ≡ are_blank (parts_at 44 text.now) }
{
    let mut left = Some(text);
    while let Some(list) = left {
        let (part, behind) = cut_at(list, b',');
        if !is_blank(part) {
            return false;
        }
        left = behind;
    }
    true
}

/// Whether an element is empty or `na`.
fn is_blank(part: &[u8]) -> bool
    ensures { result ≡ is_blank_part part.now }
{
    part.is_empty() || part == b"na".as_slice()
}

/// Whether a blackhole is asked for.
fn read_blackhole(text: Option<&Text>) -> Result<bool, BadRow>
    ensures { result ≡ blackhole_of (option_map (λ t. t.now) text.entry) }
{
    let Some(text) = text else {
        return Ok(false);
    };
    match text.bytes() {
        b"" | b"false" => Ok(false),
        b"true" => Ok(true),
        _ => Err(bad(BadValue, field::BLACKHOLE)),
    }
}

/// The hops of a route that drops nothing.
fn read_forwarding(
    alloc: Global,
    addresses: Option<&Text>,
    names: Option<&Text>,
    weights: Option<&Text>,
) -> Result<Result<RouteRow, BadRow>, OutOfMemory>
    ensures { IfOk result (λ route. route ≡ hops_listed (option_map (λ t. t.now) addresses.entry) (option_map (λ t. t.now) names.entry) (option_map (λ t. t.now) weights.entry)) }
{
    let addresses = match require_filled(field::NEXTHOP, addresses) {
        Ok(addresses) => addresses,
        Err(broken) => return Ok(Err(broken)),
    };
    let names = match require_filled(field::IFNAME, names) {
        Ok(names) => names,
        Err(broken) => return Ok(Err(broken)),
    };
    let weights = text_or_none(weights);
    Ok(read_hops(alloc, addresses, names, weights)?.map(|hops| target_of(alloc, hops)))
}

/// The bytes of a text, and none where it is absent.
fn text_or_none(text: Option<&Text>) -> &[u8]
    ensures { result.now ≡ unwrap_or (option_map (λ t. t.now) text.entry) [] }
{
    match text {
        Some(text) => text.bytes(),
        None => b"",
    }
}

/// The value of a field that must not be absent or empty.
fn require_filled(field: u8, text: Option<&Text>) -> Result<&[u8], BadRow>
    ensures { MatchResult result (λ bytes. field_filled field (option_map (λ t. t.now) text.entry) ≡ Ok bytes.now) (λ broken. field_filled field (option_map (λ t. t.now) text.entry) ≡ Err broken) }
{
    match text {
        Some(text) if !text.bytes().is_empty() => Ok(text.bytes()),
        _ => Err(bad(MissingField, field)),
    }
}

/// The hops at the pairs of two lists with a list of weights: as many addresses as names and weights, and at most
/// `MOST_HOPS`.
fn read_hops(
    alloc: Global,
    addresses: &[u8],
    names: &[u8],
    weights: &[u8],
) -> Result<Result<RowHops, BadRow>, OutOfMemory>
    ensures { IfOk result (λ hops. hops ≡ hops_of_texts (parts_at 44 addresses.now) (parts_at 44 names.now) weights.now) }
{
    let several = has_several(addresses);
    if !several && weights.is_empty() && !has_several(names) {
        return Ok(read_hop(false, addresses, names).map(|hop| RowHops::one(alloc, hop)));
    }
    let (hops, fit) = read_pairs(alloc, several, addresses, names, weights)?;
    if !fit {
        if let Err(broken) = require_counts(addresses, names, weights) {
            return Ok(Err(broken));
        }
    }
    Ok(hops)
}

/// Whether a list has more than one element.
fn has_several(list: &[u8]) -> bool
    ensures many { result ≡ nat_lt 1 (length (parts_at 44 list.now)) }
    ensures one { result ≡ false → parts_at 44 list.now ≡ list.now ∷ [] }
{
    cut_at(list, b',').1.is_some()
}

/// That two lists and a list of weights have as many elements, at most `MOST_HOPS`.
fn require_counts(addresses: &[u8], names: &[u8], weights: &[u8]) -> Result<(), BadRow>
    ensures { result ≡ counts_of (length (parts_at 44 addresses.now)) (length (parts_at 44 names.now)) weights.now }
{
    let count = count_parts(addresses);
    if count != count_parts(names) {
        return Err(bad(CountsDiffer, field::IFNAME));
    }
    if !are_weights_of(weights, count) {
        return Err(bad(CountsDiffer, field::WEIGHT));
    }
    if count > MOST_HOPS {
        return Err(bad(TooManyHops, field::NEXTHOP));
    }
    Ok(())
}

/// Whether a list of weights is empty or has so many elements.
fn are_weights_of(weights: &[u8], count: usize) -> bool
    ensures { result ≡ are_weights_of weights.now count }
{
    weights.is_empty() || count_parts(weights) == count
}

/// How many elements a list has.
fn count_parts(text: &[u8]) -> usize
    ensures { result ≡ length (parts_at 44 text.now) }
{
    count_commas(text) + 1
}

/// How many commas a text has.
fn count_commas(text: &[u8]) -> usize
    ensures count { result ≡ count_by (λ b. b == 44) text.now }
    ensures bound { result ≤ length text.now }
{
    text.iter().filter(|byte| **byte == b',').count()
}

/// The hops at the pairs of two lists that have as many elements, at most `MOST_HOPS`, and whether it is known that they
/// have.
fn read_pairs(
    alloc: Global,
    several: bool,
    addresses: &[u8],
    names: &[u8],
    weights: &[u8],
) -> Result<(Result<RowHops, BadRow>, bool), OutOfMemory>
    ensures hops { IfOk result (λ read. counts_of (length (parts_at 44 addresses.now)) (length (parts_at 44 names.now)) weights.now ≡ Ok tt → read.0 ≡ hops_with several [] (parts_at 44 addresses.now) (parts_at 44 names.now) (parts_at 44 weights.now)) }
    ensures fit { IfOk result (λ read. read.1 ≡ true → counts_of (length (parts_at 44 addresses.now)) (length (parts_at 44 names.now)) weights.now ≡ Ok tt) }
{
    let mut hops = RowHops::new(alloc);
    match put_pairs(&mut hops, several, addresses, names, weights) {
        Ok(Ok(fit)) => Ok((Ok(hops), fit)),
        Ok(Err(broken)) => {
            drop(hops);
            Ok((Err(broken), false))
        }
        Err(error) => {
            drop(hops);
            Err(error)
        }
    }
}

/// Adds the hops at the pairs of two lists that have as many elements, at most `MOST_HOPS`, and tells whether it is known
/// that they have.
fn put_pairs(
    hops: &mut RowHops,
    several: bool,
    addresses: &[u8],
    names: &[u8],
    weights: &[u8],
) -> Result<Result<bool, BadRow>, OutOfMemory>
    ensures hops { IfOk result (λ put. counts_of (length (parts_at 44 addresses.now)) (length (parts_at 44 names.now)) weights.now ≡ Ok tt → MatchResult put (λ _. hops_with several hops.old (parts_at 44 addresses.now) (parts_at 44 names.now) (parts_at 44 weights.now) ≡ Ok hops.new) (λ broken. hops_with several hops.old (parts_at 44 addresses.now) (parts_at 44 names.now) (parts_at 44 weights.now) ≡ Err broken)) }
    ensures fit { IfOk result (λ put. put ≡ Ok true → counts_of (length (parts_at 44 addresses.now)) (length (parts_at 44 names.now)) weights.now ≡ Ok tt) }
{
    let mut addresses_left = Some(addresses);
    let mut names_left = Some(names);
    let mut weights_left = Some(weights);
    let mut count = 0usize;
    while let (Some(address_list), Some(name_list)) = (addresses_left, names_left) {
        if count == MOST_HOPS {
            return Ok(Ok(false));
        }
        count += 1;
        let (address, addresses_behind) = cut_at(address_list, b',');
        let (name, names_behind) = cut_at(name_list, b',');
        let (weight, weights_behind) = cut_first(weights_left);
        match read_weighted(several, address, name, weight) {
            Ok((hop, weight)) => hops.put(hop, weight)?,
            Err(broken) => return Ok(Err(broken)),
        }
        addresses_left = addresses_behind;
        names_left = names_behind;
        weights_left = weights_behind;
    }
    Ok(Ok(addresses_left.is_none() && names_left.is_none() && weights.is_empty()))
}

/// The first element of what is left of a list, and what stands behind it; an empty one where nothing is left.
fn cut_first(left: Option<&[u8]>) -> (&[u8], Option<&[u8]>)
    ensures first { result.0.now ≡ first_part (parts_left left.entry) }
    ensures others { parts_left result.1 ≡ other_parts (parts_left left.entry) }
{
    match left {
        Some(list) => cut_at(list, b','),
        None => (b"", None),
    }
}

/// The hop that an address and a name write, with its weight.
fn read_weighted(
    several: bool,
    address: &[u8],
    name: &[u8],
    weight: &[u8],
) -> Result<(RowHop, u8), BadRow>
    ensures value { result ≡ weighted_hop several address.now name.now weight.now }
    ensures weight { IfOk result (λ hop. 0 < hop.1) }
{
    let hop = read_hop(several, address, name)?;
    Ok((hop, read_weight(weight)?))
}

/// The weight of a hop, 1 to 255: where nothing is said of it it is 1.
fn read_weight(text: &[u8]) -> Result<u8, BadRow>
    ensures value { result ≡ weight_of text.now }
    ensures some { IfOk result (λ weight. 0 < weight) }
{
    if text.is_empty() {
        return Ok(1);
    }
    match read_number(text, 255) {
        Some(weight) if weight > 0 => Ok(weight as u8),
        _ => Err(bad(BadValue, field::WEIGHT)),
    }
}

/// The hop that an address and the name of an Ethernet or Vlan interface write. A zero address is none of several hops.
fn read_hop(several: bool, address: &[u8], name: &[u8]) -> Result<RowHop, BadRow>
    ensures { result ≡ hop_of_texts several address.now name.now }
{
    let on = read_on_switch(name).ok_or(bad(Unsupported, field::IFNAME))?;
    let ip = Ip::read(address).ok_or(bad(BadValue, field::NEXTHOP))?;
    if several && is_zero(&ip) {
        return Err(bad(BadValue, field::NEXTHOP));
    }
    Ok(RowHop { on, ip })
}

/// Whether all bits of an address are 0.
fn is_zero(ip: &Ip) -> bool
    ensures { result ≡ is_zero ip.now }
{
    ip.bits.number() == 0
}

/// Where a route with these hops sends its packets: one hop with a zero address is the interface itself, and any other hop
/// alone has the weight 1.
fn target_of(alloc: Global, hops: RowHops) -> RouteRow
    ensures { result ≡ target_of_hops hops }
{
    match hops.items() {
        [(hop, _)] if is_zero(&hop.ip) => RouteRow::Direct(hop.on),
        [(hop, _)] => RouteRow::Hops(RowHops::one(alloc, *hop)),
        _ => RouteRow::Hops(hops),
    }
}
