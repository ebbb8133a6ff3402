//! Which rows a tree holds after a change. The functions do nothing; their contracts are the laws.
ghost use Rattle.std.specs.Prelude.{List as Items};
ghost use Rattle.sqlite_value.specs.Keys.{plain};
ghost use Rattle.sqlite_value.specs.Order.{Row as AnEntry};
ghost use Rattle.su_base.specs.declared.values.Value.{Value as AValue};
ghost use Rattle.su_entries.specs.Changes.{with_rows, without_rows};
ghost use Rattle.su_entries.specs.TreeRows.{AreEntries, Adds, Leaves};

/// A tree in SQLite's own order that holds rows holds these too once they are put in, and no others.
pub fn put_in_adds_rows()
    ensures { (entries : Items AnEntry) (rows before after : Items (Items AValue)) → AreEntries entries before → Adds before rows after → AreEntries (with_rows plain rows entries) after }
{}

/// A tree in SQLite's own order that holds rows holds none of these once they are taken out, and all others.
pub fn take_out_leaves_rows()
    ensures { (entries : Items AnEntry) (rows before after : Items (Items AValue)) → AreEntries entries before → Leaves before rows after → AreEntries (without_rows plain rows entries) after }
{}
