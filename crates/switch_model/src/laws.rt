// What holds of ready rows and of the desired view. Each function is a law: it does nothing, and its contract is proved.
ghost use Rattle.std.specs.Prelude.{◌≡◌, ◌⊎◌, ℕ, List};
ghost use Rattle.table_schema.specs.declared.key.Key.{Key};
ghost use Rattle.table_schema.specs.declared.row.Row.{Row};
ghost use Rattle.sai_types.specs.declared.kind.Kind.{Kind};
ghost use Rattle.sai_types.specs.declared.thing.Thing.{Thing};
ghost use Rattle.sai_types.specs.Alike.{IsIn};
ghost use Rattle.table_schema.specs.Plan.{Ports};
ghost use Rattle.table_schema.specs.Rows.{Rows};
ghost use Rattle.switch_model.specs.Desired.{IsClosed, IsThingOf, desired_view, ready_rows, placed_things};
ghost use Rattle.switch_model.specs.Good.{TypedRows};
ghost use Rattle.switch_model.specs.Marks.{Overflows};
ghost use Rattle.switch_model.specs.References.{IsSelfContained};
ghost use Rattle.switch_model.specs.Room.{HasRoomForView};

/// What a ready row names is ready.
pub fn ready_rows_are_closed()
    ensures { (rows : TypedRows) → IsClosed (ready_rows rows) }
{}

/// Where each row names only rows that are there, all of them are ready.
pub fn closed_rows_are_ready()
    ensures { (rows : TypedRows) → IsClosed rows → (key : Key) → ready_rows rows key ≡ rows key }
{}

/// Whatever a thing of the desired view refers to is in the desired view.
pub fn desired_view_is_self_contained()
    ensures { (plan : Ports) (rows : Rows) → IsSelfContained (desired_view plan rows) }
{}

/// Where the applied things and those of a row have room together, no kind is without room for the row.
pub fn room_overflows_nowhere()
    ensures { (plan : Ports) (capacities : List ℕ) (applied : TypedRows) (key : Key) (row : Row) (kind : Kind) → HasRoomForView capacities (λ (t : Thing). IsThingOf plan applied t ⊎ IsIn t (placed_things plan applied key row)) → ¬ (Overflows plan capacities applied key row kind) }
{}
