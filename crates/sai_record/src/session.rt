// The recording of what a session made its chip do.
ghost use Rattle.std.specs.Prelude.{◌≡◌, ◌∷◌, ◌++◌, [], IfOk, OnOk};
ghost use Rattle.sai_types.specs.Made.{made_after};
ghost use Rattle.sai_record.specs.Session.{recorded_effect, recording_of};
ghost use Rattle.sai_types.specs.After.{makes_id};

use crate::{Recorded, RecordedCalls, Recording};
use sai_chip::SimChip;
use sai_types::{Body, Call, Caps, Chip, Rid};
use std::alloc::Global;
use swss_types::OutOfMemory;

/// The recording of all calls that took effect on a chip with these capacities, in order. Of the objects with identifiers that
/// these made the first has the identifier 1, the next 2, and so on, as on the chip.
pub fn recording_of(alloc: Global, caps: Caps, chip: &SimChip) -> Result<Recording, OutOfMemory>
    ensures { IfOk result (λ recording. recording ≡ record { caps = caps; calls = recording_of chip.now.effects }) }
{
    let mut calls = RecordedCalls::new(alloc);
    push_effects(&mut calls, chip)?;
    Ok(Recording { caps, calls })
}

/// Puts each effect of a chip last, in order.
fn push_effects(calls: &mut RecordedCalls, chip: &SimChip) -> Result<(), OutOfMemory>
    requires { calls.old ≡ [] }
    ensures { OnOk result (calls.new ≡ recording_of chip.now.effects) }
{
    let mut made = 0;
    for before in 0..chip.effects() {
        if let Some(call) = chip.effect(before + 1) {
            made = push_effect(calls, made, call)?;
        }
    }
    Ok(())
}

/// Puts a call last that took effect behind others that made so many identifiers, and answers how many are made now. Want of
/// memory comes too where there is no next identifier.
fn push_effect(calls: &mut RecordedCalls, made: u64, call: &Call<Rid>) -> Result<u64, OutOfMemory>
    ensures put { OnOk result (calls.new ≡ calls.old ++ recorded_effect made call.now ∷ []) }
    ensures made { IfOk result (λ next. next ≡ made_after made call.now) }
{
    let Some(next) = made.checked_add(1) else {
        return Err(OutOfMemory);
    };
    let makes = makes_id(call);
    calls.push(Recorded {
        made: if makes { Some(Rid(next)) } else { None },
        call: call.copy()?,
    })?;
    Ok(if makes { next } else { made })
}

/// Whether a call makes an identifier.
fn makes_id(call: &Call<Rid>) -> bool
    ensures { result ≡ makes_id call.now }
{
    match call {
        Call::Create(Body::OwnAddress { .. } | Body::Neighbor { .. } | Body::Route { .. }) => false,
        Call::Create(_) => true,
        _ => false,
    }
}
