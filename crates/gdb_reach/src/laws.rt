//! What is open around an item of a unit, by how the unit is read. The function does nothing: its contract is the law.

ghost use Rattle.gdb_reach.specs.Laws.{OpenIsAsRead, NothingIsOpenUnread};

/// The innermost open item around any item of a unit is that by the class by which the unit is read. In a unit that isn't read there is none.
pub fn open_items_are_as_read()
    ensures read { OpenIsAsRead }
    ensures unread { NothingIsOpenUnread }
{}
