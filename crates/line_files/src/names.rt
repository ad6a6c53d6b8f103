//! Paths by name.

ghost use Rattle.std.specs.Prelude.{◌≡◌, ◌==◌};
ghost use Rattle.std.specs.List.{after_last};
ghost use Rattle.reach_model.specs.LineTables.{is_match};

use memchr::memrchr;

// What follows the last slash, or the whole path where it has none.
fn last_part(path: &[u8]) -> &[u8]
    ensures { result.now ≡ after_last (λ b. b == 47) path.now }
{
    match memrchr(b'/', path) {
        Some(slash) => &path[slash + 1..],
        None => path,
    }
}

/// Whether the path is the name, or what follows its last slash is.
pub(crate) fn is_match(name: &[u8], path: &[u8]) -> bool
    ensures { result ≡ is_match name.now path.now }
{
    path == name || last_part(path) == name
}
