// Changes of what is known of one name.
ghost use Rattle.std.specs.Prelude.{◌≡◌, ◌≤◌, ◌↔◌, true, false, None, Some, length, IfOk, IfErr, OnOk, OnErr, IsTrue};
ghost use Rattle.ref_counts.specs.Registered.{IsReadable, begun_to_go, made_live, released, with_pin, with_user, without_last_pin, without_user};
ghost use Rattle.ref_counts.specs.Registry.{changed, finished_in, gone_from, ids_of, is_live, is_retiring, places_of, retire_refusal_at, state_of};

use crate::registrations::Registrations;
use crate::unpinned::Unpinned;
use crate::{Name, NameState};
use sai_types::Vid;
use switch_model::Wait;
use swss_types::OutOfMemory;
use table_schema::Key;

/// How a name stands.
pub fn state(names: &Registrations, name: &Name) -> NameState
    ensures { result ≡ state_of names.now name.now }
{
    match names.get(name) {
        Some(registration) => registration.state(),
        None => NameState::Absent,
    }
}

/// How the row of a key stands.
pub fn row_state(names: &Registrations, key: &Key) -> NameState
    ensures { result ≡ state_of names.now (Name.Row key.now) }
{
    match names.get_row(key) {
        Some(registration) => registration.state(),
        None => NameState::Absent,
    }
}

/// All of a name is there, with these identifiers.
pub fn make_live(names: &mut Registrations, name: &Name, ids: &[Vid])
    requires { length ids.now ≤ places_of names.old name.now }
    ensures { names.new ≡ changed names.old name.now (made_live ids.now) }
{
    if let Some(registration) = names.get_mut(name) {
        registration.make_live(ids);
    }
}

/// A name that was retiring is there again, with these identifiers in place of those that it had: as many.
pub fn bring_back(names: &mut Registrations, name: &Name, ids: &[Vid])
    requires retires { is_retiring (state_of names.old name.now) ≡ true }
    requires many { length ids.now ≡ length (ids_of names.old name.now) }
    ensures { names.new ≡ changed names.old name.now (made_live ids.now) }
{
    if let Some(registration) = names.get_mut(name) {
        registration.come_back(ids);
    }
}

/// All of a name is there that a worker builds, with no identifier. Any other name stays as it is.
pub fn finish(names: &mut Registrations, name: &Name)
    ensures { names.new ≡ finished_in (state_of names.old name.now) names.old name.now }
{
    if let Some(registration) = names.get_mut(name) {
        registration.finish();
    }
}

/// A key comes to use a name, where it is not absent.
pub fn add_user(names: &mut Registrations, name: &Name, user: Key) -> Result<(), OutOfMemory>
    requires { IsReadable user }
    ensures ok { OnOk result (names.new ≡ changed names.old name.now (with_user user)) }
    ensures err { OnErr result (names.new ≡ names.old) }
{
    match names.get_mut(name) {
        Some(registration) => registration.add_user(user),
        None => Ok(()),
    }
}

/// A key comes to use a name, where it is not absent. True says that it is not.
pub fn share(names: &mut Registrations, name: &Name, user: Key) -> Result<bool, OutOfMemory>
    requires { IsReadable user }
    ensures there { IfOk result (λ there. IsTrue there ↔ ¬ (state_of names.old name.now ≡ NameState.Absent)) }
    ensures ok { OnOk result (names.new ≡ changed names.old name.now (with_user user)) }
    ensures err { OnErr result (names.new ≡ names.old) }
{
    match names.get_mut(name) {
        Some(registration) => registration.share(user),
        None => Ok(false),
    }
}

/// A key uses a name no more.
pub fn drop_user(names: &mut Registrations, name: &Name, user: &Key)
    ensures { names.new ≡ changed names.old name.now (without_user user.now) }
{
    if let Some(registration) = names.get_mut(name) {
        registration.drop_user(user);
    }
}

/// Why a worker may not take a name away.
pub fn refusal(names: &Registrations, name: &Name, worker: u32) -> Option<Wait>
    ensures { result ≡ retire_refusal_at names.now worker name.now }
{
    match names.get(name) {
        Some(registration) => registration.refusal(worker),
        None => None,
    }
}

/// A worker begins to take a name away, unless a key uses it or another worker pins it.
pub fn retire(names: &mut Registrations, name: &Name, worker: u32) -> Result<(), Wait>
    requires { state_of names.old name.now ≡ NameState.Live }
    ensures free { OnOk result (retire_refusal_at names.old worker name.now ≡ None) }
    ensures ok { OnOk result (names.new ≡ changed names.old name.now (begun_to_go worker)) }
    ensures refusal { IfErr result (λ wait. retire_refusal_at names.old worker name.now ≡ Some wait) }
    ensures err { OnErr result (names.new ≡ names.old) }
{
    match names.get_mut(name) {
        Some(registration) => registration.retire(worker),
        None => unreachable!(),
    }
}

/// A name that was retiring is absent.
pub fn end_retirement(names: &mut Registrations, name: &Name)
    ensures { names.new ≡ gone_from names.old name.now }
{
    if let NameState::Retiring(_) = state(names, name) {
        names.remove(name);
    }
}

/// A worker pins a name for a user, where it is live.
pub fn pin(names: &mut Registrations, name: &Name, worker: u32, user: &Key) -> Result<(), Unpinned>
    requires { IsReadable user.now }
    ensures ok { OnOk result (names.new ≡ changed names.old name.now (with_pin worker user.now)) }
    ensures live { OnOk result (is_live (state_of names.old name.now) ≡ true) }
    ensures other { IfErr result (λ why. why ≡ Unpinned.NotLive → is_live (state_of names.old name.now) ≡ false) }
    ensures err { OnErr result (names.new ≡ names.old) }
{
    match names.get_mut(name) {
        Some(registration) => registration.pin(worker, user),
        None => Err(Unpinned::NotLive),
    }
}

/// The last pin of a name is taken back.
pub fn unpin_last(names: &mut Registrations, name: &Name)
    ensures { names.new ≡ changed names.old name.now without_last_pin }
{
    if let Some(registration) = names.get_mut(name) {
        registration.unpin_last();
    }
}

/// A worker gives up its pins of a name.
pub fn release(names: &mut Registrations, name: &Name, worker: u32, used: bool)
    ensures { names.new ≡ changed names.old name.now (released worker used) }
{
    if let Some(registration) = names.get_mut(name) {
        registration.release(worker, used);
    }
}
