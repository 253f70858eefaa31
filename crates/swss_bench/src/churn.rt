// A view in which routes come and go.
ghost use Rattle.std.specs.Prelude.{◌≡◌, ◌<◌, ◌+◌, IfOk, []};
ghost use Rattle.swss_bench.specs.Churn.{AreRoutesBelow, nth_prefix};

use crate::timing::print_time;
use anyhow::{Result, ensure};
use asic_view::View;
use sai_types::{Body, Kind, To, Vid};
use std::alloc::Global;
use std::mem::drop;
use std::time::{Clock, Instant};
use swss_types::{Bits, Family, Ip, Prefix};

/// How many routes come and go.
const ROUTES: u32 = 20_000;

/// The prefix of a route: 256 addresses, from 11.0.0.0 on.
fn prefix(route: u32) -> Prefix
    requires { route < 20000 }
    ensures { result ≡ nth_prefix route }
{
    Prefix {
        ip: Ip {
            family: Family::V4,
            bits: Bits::new(0x0B00_0000 + u128::from(route) * 256),
        },
        len: 24,
    }
}

/// Makes 20,000 routes and takes them away again, so many times in one view, and tells the time of a call.
pub fn time_churn(rt: &(impl Print + Eprint + Clock), alloc: Global, times: u32) -> Result<()> {
    let mut view = View::new(alloc);
    let timed = time_routes(rt, alloc, &mut view, times);
    drop(view);
    timed
}

/// The same in this view.
fn time_routes(
    rt: &(impl Print + Eprint + Clock),
    alloc: Global,
    view: &mut View,
    times: u32,
) -> Result<()>
    requires { AreRoutesBelow 20000 view.old.objects }
{
    let start = Instant::now(rt)?;
    let left = come_and_go(alloc, view, times)?;
    print_time(
        rt,
        start,
        times.saturating_mul(2 * ROUTES),
        "calls to a view",
    )?;
    println!(rt; "{times} times {ROUTES} routes: {left} left")?;
    Ok(())
}

/// Makes the routes and takes them away again, so many times in one view, and gives how many are left.
fn come_and_go(alloc: Global, view: &mut View, times: u32) -> Result<u64>
    requires { AreRoutesBelow 20000 view.old.objects }
{
    let mut made = Vec::with_capacity(alloc, ROUTES as usize)?;
    for _ in 0..times {
        make_all(view, &mut made)?;
        take_all(view, &mut made);
    }
    Ok(view.used(Kind::Route))
}

/// Makes the routes in a view without any.
fn make_all(view: &mut View, made: &mut Vec<Vid>) -> Result<()>
    requires { AreRoutesBelow 20000 view.old.objects }
    ensures { IfOk result (λ done. AreRoutesBelow 20000 view.new.objects) }
{
    ensure!(view.used(Kind::Route) == 0, "a route is left");
    for route in 0..ROUTES {
        make(view, made, route)?;
    }
    Ok(())
}

/// Makes a route.
fn make(view: &mut View, made: &mut Vec<Vid>, route: u32) -> Result<()>
    requires few { route < 20000 }
    requires below { AreRoutesBelow route view.old.objects }
    ensures { IfOk result (λ done. AreRoutesBelow (route + 1) view.new.objects) }
{
    let vid = view.create(Body::Route {
        vr: None,
        prefix: prefix(route),
        to: To::Drop,
    })?;
    made.push(vid)?;
    Ok(())
}

/// Takes what was made away.
fn take_all(view: &mut View, made: &mut Vec<Vid>)
    requires { AreRoutesBelow 20000 view.old.objects }
    ensures { AreRoutesBelow 20000 view.new.objects }
{
    while let Some(vid) = made.pop() {
        view.take_back(vid);
    }
}
