//! Whether two entries are the same.
ghost use Rattle.std.specs.Prelude.{◌≡◌, ◌≢◌, true, false};

use psi_bundle::{Call, Entry};

/// Whether two entries are the same: the same call with the same answer.
pub(crate) fn is_same(a: &Entry, b: &Entry) -> bool
    ensures same { result ≡ true → a.now ≡ b.now }
    ensures other { result ≡ false → a.now ≢ b.now }
{
    is_same_call(&a.call, &b.call) && a.answer == b.answer
}

// Whether two calls are the same.
fn is_same_call(a: &Call, b: &Call) -> bool
    ensures same { result ≡ true → a.now ≡ b.now }
    ensures other { result ≡ false → a.now ≢ b.now }
{
    match (a, b) {
        (
            Call::Put { tag, label },
            Call::Put {
                tag: other,
                label: another,
            },
        ) => { tag == other && label.bytes() == another.bytes() }
        (Call::Drop { tag }, Call::Drop { tag: other }) => tag == other,
        (Call::Ask, Call::Ask) => true,
        (
            Call::Repack { row, from },
            Call::Repack {
                row: other,
                from: start,
            },
        ) => { row == other && from == start }
        _ => false,
    }
}
