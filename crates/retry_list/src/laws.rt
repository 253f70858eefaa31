// Laws of the list of rows that wait. The functions do nothing; their contracts are the laws.
ghost use Rattle.std.specs.Prelude.{◌≡◌, ◌↔◌, true, List, [], None};
ghost use Rattle.std.specs.List.Sorted.{IsStrictlySortedBy};
ghost use Rattle.table_schema.specs.Fields.{HasRisingKeys};
ghost use Rattle.table_schema.specs.Key.{key_cmp};
ghost use Rattle.table_schema.specs.declared.key.Key.{Key};
ghost use Rattle.switch_model.specs.declared.wait.Wait.{Wait};
ghost use Rattle.retry_list.specs.declared.event.Event.{Event};
ghost use Rattle.retry_list.specs.Reasons.{Reasons, RetryStep, event_of, is_about, last_reason, reason_at, reasons_after, reasons_after_all, woken_keys};

/// Whatever was put, forgotten and woken: a key's reason is the last that was put, unless the key was forgotten since, or
/// woken by an event that it is about.
pub fn list_is_what_was_put()
    ensures reason { (steps : List RetryStep) (key : Key) → reason_at (reasons_after_all [] steps) key ≡ last_reason key None steps }
    ensures order { (reasons : Reasons) (step : RetryStep) → HasRisingKeys key_cmp reasons → HasRisingKeys key_cmp (reasons_after reasons step) }
{}

/// A reason is about exactly one event.
pub fn reasons_are_about_events()
    ensures { (event : Event) (wait : Wait) → (is_about event wait ≡ true) ↔ (event_of wait ≡ event) }
{}

/// The keys that an event wakes rise.
pub fn woken_keys_rise()
    ensures { (event : Event) (reasons : Reasons) → HasRisingKeys key_cmp reasons → IsStrictlySortedBy key_cmp (woken_keys event reasons) }
{}
