// Applies of a case.
ghost use Rattle.std.specs.Prelude.{◌≡◌, [], IfOk};
ghost use Rattle.part_cases.specs.Tested.{AreLinked, AreTwins};

use crate::chips::put_away;
use crate::draw::ViewDraw;
use crate::plans::case::{Case, Odd};
use crate::plans::drawn::draw_view;
use crate::plans::room::{AMPLE, fits, keeps_routers, tight_room};
use crate::plans::starting::start;
use crate::plans::trying::{apply_one, make_drawn, make_new};
use crate::plans::watch::{Watch, add_addresses};
use anyhow::{Context, Result, ensure};
use sai_chip::SimChip;
use sai_types::{Body, Caps, Mode, Object, Vid};
use std::alloc::Global;
use swss_types::Ip;
use syncd_core::{ApplyStep, Syncd};

/// Both views of a case, and what its applies share beside them.
#[derive(Drop)]
struct Views {
    caps: Caps,
    old: Vec<Body<Vid>>,
    new: Vec<Body<Vid>>,
    ips: Vec<Ip>,
    routers: bool,
    mode: Option<Mode>,
}

/// Draws both views of a case, makes the old one on a chip, and brings the chip to the new one. It fails where something
/// is found that is not to be.
pub fn run_case(alloc: Global, case: &Case) -> Result<()> {
    let views = draw_views(alloc, case)?;
    let mut chip = SimChip::new(alloc, views.caps, Vec::new(alloc));
    let mut twin = SimChip::new(alloc, views.caps, Vec::new(alloc));
    let found = run_on(alloc, &views, case.breaks.as_slice(), &mut chip, &mut twin);
    put_away(chip);
    put_away(twin);
    found
}

/// Draws both views of a case.
fn draw_views(alloc: Global, case: &Case) -> Result<Views> {
    let (first, second) = (ViewDraw::new(case.seed, 1), ViewDraw::new(case.seed, 2));
    let (before, after) = if case.routers {
        (Some(0), Some(u64::from(case.moved)))
    } else {
        (None, None)
    };
    let old = draw_view(alloc, &first, case.old, case.weights, case.odd, before)?;
    let new = draw_view(alloc, &second, case.new, case.weights, Odd::NONE, after)?;
    let caps = if case.tight {
        tight_room(old.as_slice(), new.as_slice())
    } else {
        AMPLE
    };
    let mut ips = Vec::new(alloc);
    add_addresses(&mut ips, old.as_slice())?;
    add_addresses(&mut ips, new.as_slice())?;
    Ok(Views {
        caps,
        old,
        new,
        ips,
        routers: case.routers,
        mode: case.mode,
    })
}

/// Makes the old view on these chips, which are empty, and brings them to the new one.
fn run_on(
    alloc: Global,
    views: &Views,
    breaks: &[u64],
    chip: &mut SimChip,
    twin: &mut SimChip,
) -> Result<()>
    requires { AreTwins chip.old twin.old }
{
    make_old(alloc, chip, twin, views.old.as_slice())?;
    apply_each(alloc, views, breaks, chip, twin)
}

/// Makes the drawn objects on two chips.
fn make_old(
    alloc: Global,
    chip: &mut SimChip,
    twin: &mut SimChip,
    bodies: &[Body<Vid>],
) -> Result<()>
    requires { AreTwins chip.old twin.old }
    ensures { IfOk result (λ done. AreTwins chip.new twin.new) }
{
    for body in bodies {
        make_drawn(alloc, chip, twin, body).context("the old view")?;
    }
    Ok(())
}

/// Applies the new view and is broken off after so many calls, each time anew; then applies it to the end, and once more,
/// where nothing is left to do.
fn apply_each(
    alloc: Global,
    views: &Views,
    breaks: &[u64],
    chip: &mut SimChip,
    twin: &mut SimChip,
) -> Result<()>
    requires { AreTwins chip.old twin.old }
{
    for most in breaks {
        apply_view(alloc, views, *most, chip, twin).context("an apply that breaks off")?;
    }
    apply_view(alloc, views, u64::MAX, chip, twin).context("the apply")?;
    let left = apply_view(alloc, views, u64::MAX, chip, twin).context("the second apply")?;
    ensure!(left == 0, "a second apply has {left} calls");
    Ok(())
}

/// Begins anew and applies the new view, so many calls at most. It tells how many calls the plan had.
fn apply_view(
    alloc: Global,
    views: &Views,
    most: u64,
    chip: &mut SimChip,
    twin: &mut SimChip,
) -> Result<u64>
    requires { AreTwins chip.old twin.old }
    ensures { IfOk result (λ calls. AreTwins chip.new twin.new) }
{
    let mut syncd = Syncd::new(alloc, views.caps);
    let mut second = SimChip::new(alloc, AMPLE, Vec::new(alloc));
    let calls = apply_by(alloc, views, most, &mut syncd, &mut second, chip, twin);
    put_away(second);
    drop(syncd);
    calls
}

/// The same by a new syncd and an empty chip, on which the new view is made too.
fn apply_by(
    alloc: Global,
    views: &Views,
    most: u64,
    syncd: &mut Syncd,
    second: &mut SimChip,
    chip: &mut SimChip,
    twin: &mut SimChip,
) -> Result<u64>
    requires twins { AreTwins chip.old twin.old }
    requires objects { second.old.objects ≡ [] }
    requires effects { second.old.effects ≡ [] }
    ensures { IfOk result (λ calls. AreTwins chip.new twin.new) }
{
    let objects = build(alloc, syncd, second, views.new.as_slice()).context("the new view")?;
    let fits = fits(alloc, chip, second, &views.caps)?;
    let hitless = keeps_routers(alloc, chip, second)? && fits;
    let ips = views.ips.as_slice();
    let mut watch = Watch::new(alloc, chip, second, ips, views.routers, hitless)?;
    let mode = start(alloc, syncd, chip, second, objects.as_slice())?;
    ensure!((mode == Mode::Hitless) == hitless, "{mode:?}");
    let calls = syncd.left();
    let is_so = calls == 0 || views.mode.is_none() || views.mode == Some(mode);
    ensure!(is_so, "the plan is {mode:?}");
    apply_most(alloc, &mut watch, most, syncd, chip, twin)?;
    let ends = syncd.left() != 0 || watch.ends_at(alloc, chip)?;
    ensure!(ends, "another view in the end");
    Ok(calls)
}

/// Builds a temporary view of the drawn objects, which are made on an empty chip too. It lists them.
fn build(
    alloc: Global,
    syncd: &mut Syncd,
    chip: &mut SimChip,
    bodies: &[Body<Vid>],
) -> Result<Vec<Object<Vid>>>
    requires objects { chip.old.objects ≡ [] }
    requires effects { chip.old.effects ≡ [] }
    ensures { IfOk result (λ objects. AreLinked syncd.new objects.items chip.new) }
{
    let mut objects = Vec::new(alloc);
    syncd.init_view();
    for body in bodies {
        make_new(alloc, syncd, chip, &mut objects, body)?;
    }
    Ok(objects)
}

/// Makes so many calls of the plan at most, and looks at the chip after each.
fn apply_most(
    alloc: Global,
    watch: &mut Watch,
    most: u64,
    syncd: &mut Syncd,
    chip: &mut SimChip,
    twin: &mut SimChip,
) -> Result<()>
    requires { AreTwins chip.old twin.old }
    ensures { IfOk result (λ done. AreTwins chip.new twin.new) }
{
    for _ in 0..most {
        let step = apply_one(syncd, chip, twin)?;
        watch.look(alloc, chip)?;
        if step == ApplyStep::Ended {
            return Ok(());
        }
    }
    Ok(())
}
