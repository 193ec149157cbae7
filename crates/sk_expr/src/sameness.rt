//! Whether rows are the same.

ghost use Rattle.std.specs.Prelude.{◌≡◌, ◌↔◌, IsTrue};

use sk_rows::{Row, Value};

fn are_same_values(a: &[Value], b: &[Value]) -> bool
    ensures { IsTrue result ↔ (a.now ≡ b.now) }
{
    if a.len() != b.len() {
        return false;
    }
    for at in 0..a.len() {
        if !a[at].is_same(&b[at]) {
            return false;
        }
    }
    true
}

pub(crate) fn are_same_rows(a: &[Row], b: &[Row]) -> bool
    ensures { IsTrue result ↔ (a.now ≡ b.now) }
{
    if a.len() != b.len() {
        return false;
    }
    for at in 0..a.len() {
        if !are_same_values(a[at].as_slice(), b[at].as_slice()) {
            return false;
        }
    }
    true
}
