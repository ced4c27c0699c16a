//! Opened replies.
ghost use Rattle.std.specs.Prelude.{◌≡◌, ◌≤◌, ◌<◌, ◌+◌, ◌*◌, ◌/◌, ◌%◌, ◌^◌, ℕ, List, ◌++◌, nat_eq, None, IfOk, OnOk, IfErr, length, map, take, drop};
ghost use Rattle.std.specs.Int.{bytes_high_first};
ghost use Rattle.std.specs.List.{All, flat_map, list_all, position, sum};
ghost use Rattle.item_slots.specs.Tags.{bins_of_row, parts, tag_of};
ghost use Rattle.noise_ledger.specs.Verdicts.{parameters_of, ArePassed};
ghost use Rattle.psi_bundle.specs.Planes.{planes_of_bundle};
ghost use Rattle.query_codec.specs.Replies.{IsReply, IsReplyHead, reply_planes, reply_ciphertexts, reply_counts, reply_fault};
ghost use Rattle.psi_receiver.specs.Faults.{is_long, IsOpenFault, IsUnread};
ghost use Rattle.psi_receiver.specs.Openings.{AreOpened, IsOpenedPlane, opened, opened_item, opened_slots, value_in};

use crate::asking::{first_long, tags_of};
use crate::fault::OpenFault;
use crate::found::Found;
use crate::placement::{Placed, place_tags};
use crate::plane::Plane;
use crate::slots::{BINS, PARTS};
use crate::turns::{map_in_turns, values_of};
use bfv_core::SecretKey;
use item_slots::Tag;
use noise_ledger::Params;
use psi_bundle::Label;
use query_codec::{CodecFault, read_reply, read_reply_ciphertext, read_reply_head};
use rayon::prelude::*;
use std::alloc::{AllocError, Global};
use std::thread::Threads;

/// The items that a reply to their query opens to, with their labels, by item and then by bundle.
///
/// It fails, but for want of memory, exactly where an item is longer than 255 bytes (`TooLong`, which comes first), where
/// the items have no placement (`Crowded`), or where the reply is no reply body under the parameters (`Codec`). The
/// parameters are passed ones, and there are fewer than 2^32 items.
pub fn open<R: Threads + Sync>(
    rt: &R,
    alloc: Global,
    params: &Params,
    seed: &[u8; 32],
    items: &[Vec<u8>],
    reply: &[u8],
) -> Result<Vec<Found>, OpenFault>
    requires passed { ArePassed (parameters_of params.now) }
    requires numbered { length items.now < 2 ^ 32 }
    ensures opened { IfOk result (λ found. AreOpened (parameters_of params.now) seed.now
        (map (λ item. tag_of item.items) items.now) reply.now found.items) }
    ensures short { OnOk result (position (λ item. is_long item.items) items.now ≡ None) }
    ensures reply { OnOk result (IsReply (parameters_of params.now) reply.now) }
    ensures fault { IfErr result (IsOpenFault params.now.rows
        (position (λ item. is_long item.items) items.now)
        (map (λ item. tag_of item.items) items.now)
        (reply_fault (parameters_of params.now) reply.now)) }
{
    if let Some(item) = first_long(items) {
        return Err(OpenFault::TooLong { item });
    }
    let tags = tags_of(alloc, items)?;
    open_tags(rt, alloc, params, seed, &tags, reply)
}

/// What a reply opens to for tags, as [`open`] gives it for items. It never answers `TooLong`.
pub fn open_tags<R: Threads + Sync>(
    rt: &R,
    alloc: Global,
    params: &Params,
    seed: &[u8; 32],
    tags: &[Tag],
    reply: &[u8],
) -> Result<Vec<Found>, OpenFault>
    requires passed { ArePassed (parameters_of params.now) }
    requires numbered { length tags.now < 2 ^ 32 }
    ensures opened { IfOk result (λ found. AreOpened
        (parameters_of params.now) seed.now tags.now reply.now found.items) }
    ensures reply { OnOk result (IsReply (parameters_of params.now) reply.now) }
    ensures fault { IfErr result (IsOpenFault params.now.rows None tags.now
        (reply_fault (parameters_of params.now) reply.now)) }
{
    let placed = place_tags(alloc, tags, params.rows)?;
    let counts = read_reply_head(alloc, params, reply)?;
    let key = SecretKey::of(alloc, seed)?;
    let number = planes(params, counts.items());
    match open_ciphertexts(rt, alloc, params, &key, reply, number) {
        Ok(planes) => Ok(open_placed(rt, alloc, params, counts.items(), &planes, &placed)?),
        Err(_) => Err(first_fault(alloc, params, reply)),
    }
}

// The ciphertexts of a reply with these numbers of bundles.
fn planes(params: &Params, counts: &[u16]) -> usize
    requires units { params.now.units ≤ 4 }
    requires rows { length counts.now ≤ 4 }
    ensures { result ≡ planes_of_bundle (parameters_of params.now) * sum counts.now }
{
    (1 + usize::from(params.units)) * bundles_before(counts, counts.len())
}

// Why a reply is not read: the first of its residues that is not below its modulus, whichever thread met one, or want of
// memory.
fn first_fault(alloc: Global, params: &Params, reply: &[u8]) -> OpenFault
    requires { ArePassed (parameters_of params.now) }
    ensures { IsUnread (reply_fault (parameters_of params.now) reply.now) result }
{
    match read_reply(alloc, params, reply) {
        Ok(_) => OpenFault::NoMemory,
        Err(fault) => OpenFault::from(fault),
    }
}

// The slots of what each ciphertext of a reply opens to, each read and opened by itself, in threads. A reply whose
// ciphertexts are all read is one.
fn open_ciphertexts<R: Threads + Sync>(
    rt: &R,
    alloc: Global,
    params: &Params,
    key: &SecretKey,
    reply: &[u8],
    number: usize,
) -> Result<Vec<Plane>, CodecFault>
    requires passed { ArePassed (parameters_of params.now) }
    requires head { IsReplyHead (parameters_of params.now) reply.now }
    requires number { number ≡ reply_planes (parameters_of params.now)
        (reply_counts (parameters_of params.now) reply.now) }
    ensures opened { IfOk result (λ planes. planes.items ≡ map (opened_slots key.now)
        (reply_ciphertexts (parameters_of params.now) reply.now)) }
    ensures reply { OnOk result (IsReply (parameters_of params.now) reply.now) }
{
    let open = |c: usize| -> Result<Plane, CodecFault>
        requires { (c < reply_planes (parameters_of params.now)
            (reply_counts (parameters_of params.now) reply.now))
            × ArePassed (parameters_of params.now)
            × IsReplyHead (parameters_of params.now) reply.now }
        ensures { IfOk result (IsOpenedPlane
            (parameters_of params.entry.now) key.entry.now reply.entry.now c) }
    { open_ciphertext(alloc, params, key, reply, c) };
    let planes = map_in_turns(rt, alloc, number, &open)?;
    values_of(alloc, planes)
}

// The slots of what ciphertext number `c` of a reply opens to.
fn open_ciphertext(
    alloc: Global,
    params: &Params,
    key: &SecretKey,
    reply: &[u8],
    c: usize,
) -> Result<Plane, CodecFault>
    requires passed { ArePassed (parameters_of params.now) }
    requires head { IsReplyHead (parameters_of params.now) reply.now }
    requires within { c < reply_planes (parameters_of params.now)
        (reply_counts (parameters_of params.now) reply.now) }
    ensures { IfOk result (IsOpenedPlane (parameters_of params.now) key.now reply.now c) }
{
    let ct = read_reply_ciphertext(alloc, params, reply, c)?;
    Ok(Plane::opened(alloc, key, &ct)?)
}

// What opened planes give for placed tags, in threads where there are some thousand.
fn open_placed<R: Threads + Sync>(
    rt: &R,
    alloc: Global,
    params: &Params,
    counts: &[u16],
    planes: &[Plane],
    placed: &[Placed],
) -> Result<Vec<Found>, AllocError>
    requires few { params.now.units ≤ 4 }
    requires within { All (λ x. x.position < bins_of_row * length counts.now) placed.now }
    requires whole { length planes.now
        ≡ planes_of_bundle (parameters_of params.now) * sum counts.now }
    ensures { IfOk result (λ found. found.items ≡ opened
        (record { parameters = parameters_of params.now; counts = counts.now; planes = planes.now })
        placed.now) }
{
    let lists = placed
        .par_iter()
        .map(
            |x: &Placed| -> Result<Vec<Found>, AllocError>
                requires { (x.now.position < bins_of_row * length counts.now) ×
                    (params.now.units ≤ 4) ×
                    (length planes.now
                    ≡ planes_of_bundle (parameters_of params.now) * sum counts.now) }
                ensures { IfOk result (λ found. found.items ≡ opened_item
                    (record {
                      parameters = parameters_of params.entry.now;
                      counts = counts.entry.now;
                      planes = planes.entry.now;
                    }) x.now) }
            { open_item(alloc, params, counts, planes, x) },
        )
        .collect::<Result<Vec<Vec<Found>>, AllocError>>(rt, alloc)??;
    join(alloc, lists)
}

// Lists, one after another.
fn join(alloc: Global, lists: Vec<Vec<Found>>) -> Result<Vec<Found>, AllocError>
    ensures { IfOk result (λ all. all.items ≡ flat_map (λ list. list.items) lists.items) }
{
    let mut all = Vec::new(alloc);
    for list in lists {
        let mut list = list;
        all.append(&mut list)?;
    }
    Ok(all)
}

// The bundles in which a placed tag opens.
fn open_item(
    alloc: Global,
    params: &Params,
    counts: &[u16],
    planes: &[Plane],
    x: &Placed,
) -> Result<Vec<Found>, AllocError>
    requires few { params.now.units ≤ 4 }
    requires within { x.now.position < bins_of_row * length counts.now }
    requires whole { length planes.now
        ≡ planes_of_bundle (parameters_of params.now) * sum counts.now }
    ensures { IfOk result (λ found. found.items ≡ opened_item
        (record { parameters = parameters_of params.now; counts = counts.now; planes = planes.now })
        x.now) }
{
    let mut found = Vec::new(alloc);
    let row = usize::from(x.position) / BINS;
    let bin = usize::from(x.position) % BINS;
    let first = bundles_before(counts, row);
    for bundle in 0..counts[row] {
        let own = planes_of_bundle(planes, params.units, first + usize::from(bundle));
        if own[0].is_zero(bin) {
            found.push(Found {
                item: x.item,
                bundle,
                label: label(alloc, &own[1..], bin)?,
            })?;
        }
    }
    Ok(found)
}

// The planes of a bundle, by the number of bundles before it: the root plane and the label units' planes.
fn planes_of_bundle(planes: &[Plane], units: u8, bundle: usize) -> &[Plane]
    requires within { (bundle + 1) * (1 + units) ≤ length planes.now }
    ensures planes { result.now ≡ take (1 + units) (drop (bundle * (1 + units)) planes.now) }
    ensures number { length result.now ≡ 1 + units }
{
    let each = 1 + usize::from(units);
    let first = bundle * each;
    &planes[first..first + each]
}

// The bundles of the rows before one.
fn bundles_before(counts: &[u16], row: usize) -> usize
    requires within { row ≤ length counts.now }
    requires few { sum counts.now < 2 ^ 63 }
    ensures sum { result ≡ sum (take row counts.now) }
    ensures fewer { result ≤ sum counts.now }
{
    let mut bundles = 0;
    for count in &counts[..row] {
        bundles += usize::from(*count);
    }
    bundles
}

// The label that the planes of the label units give in a bin.
fn label(alloc: Global, units: &[Plane], bin: usize) -> Result<Label, AllocError>
    requires bin { bin < bins_of_row }
    requires few { length units.now ≤ 4 }
    ensures { IfOk result (λ label. label ≡ flat_map (λ unit.
        flat_map (λ part. bytes_high_first 2 (value_in unit bin part % 65536)) parts) units.now) }
{
    let mut bytes = Vec::new(alloc);
    for unit in units {
        append_unit(&mut bytes, unit, bin)?;
    }
    match Label::of(&bytes) {
        Some(label) => Ok(label),
        None => unreachable!(),
    }
}

// Appends the ten bytes of a label unit: 16 bits from each part, the higher byte first.
fn append_unit(bytes: &mut Vec<u8>, plane: &Plane, bin: usize) -> Result<(), AllocError>
    requires { bin < bins_of_row }
    ensures { OnOk result (bytes.new.items ≡ bytes.old.items
        ++ flat_map (λ part. bytes_high_first 2 (value_in plane.now bin part % 65536)) parts) }
{
    for part in 0..PARTS {
        append_number(bytes, (plane.value(PARTS * bin + part) % 65536) as u16)?;
    }
    Ok(())
}

// Appends a number, the higher byte first.
fn append_number(bytes: &mut Vec<u8>, number: u16) -> Result<(), AllocError>
    ensures { OnOk result (bytes.new.items ≡ bytes.old.items ++ bytes_high_first 2 number) }
{
    bytes.extend_from_slice(&number.to_be_bytes())
}
