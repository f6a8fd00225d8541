//! Columns by page number.

ghost use Rattle.std.specs.Prelude.{◌≡◌, ◌-◌, ◌++◌, ◌≤◌, length, replicate, vec_capacity, None};

/// Grows a column to `count` places, in room that was reserved: nothing is in those that are added.
/// One that has as many stays as it is. It takes no memory.
pub(crate) fn grow_column<T: Drop>(column: &mut Vec<Option<T>>, count: u32)
    requires room { count ≤ vec_capacity column.old }
    ensures grown { column.new.items
        ≡ column.old.items ++ replicate (count - length column.old.items) None }
    ensures room { vec_capacity column.new ≡ vec_capacity column.old }
{
    for place in column.len()..count as usize {
        column.push_reserved(None);
    }
}

/// Grows a column without holes: this value is in each place that is added.
pub(crate) fn grow_column_with<T: Copy>(column: &mut Vec<T>, count: u32, value: T)
    requires room { count ≤ vec_capacity column.old }
    ensures grown { column.new.items
        ≡ column.old.items ++ replicate (count - length column.old.items) value }
    ensures room { vec_capacity column.new ≡ vec_capacity column.old }
{
    for place in column.len()..count as usize {
        column.push_reserved(value);
    }
}
