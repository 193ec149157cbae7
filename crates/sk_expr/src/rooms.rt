//! The room that a row takes in a file.

ghost use Rattle.std.specs.Prelude.{◌≡◌, ◌+◌, ◌<◌, IfSome, IfNone};
ghost use Rattle.sk_rows.specs.Values.{encoded_len};
ghost use Rattle.sk_model.specs.Replies.{has_room as has_room_of};

use sk_rows::{LONGEST_ROW, Value};

/// What is left of the room behind a value, where it fits.
fn room_behind(value: &Value, room: usize) -> Option<usize>
    ensures left { IfSome result (λ left. left + encoded_len value.now ≡ room) }
    ensures none { IfNone result (room < encoded_len value.now) }
{
    match value {
        Value::Int(_) => room.checked_sub(8),
        Value::Text(t) => {
            let left = room.checked_sub(t.as_slice().len())?;
            left.checked_sub(2)
        }
        Value::Bool(_) => room.checked_sub(1),
    }
}

/// Whether the row takes at most 1,024 bytes in a file.
pub(crate) fn has_room(values: &[Value]) -> bool
    ensures { result ≡ has_room_of values.now }
{
    let mut room: usize = LONGEST_ROW;
    for value in values {
        match room_behind(value, room) {
            None => return false,
            Some(left) => room = left,
        }
    }
    true
}
