ghost use Rattle.std.specs.Prelude.{◌<◌, ◌≡◌, ◌==◌, ◌+◌, position, vec_len};
ghost use Rattle.tagged_mailbox.specs.Mail.{reserved, UsesPlace};

/// Gives up one place of the tag.
pub(crate) fn use_place(places: &mut Vec<u64>, tag: u64)
    requires { 0 < reserved places.old.items tag }
    ensures used { UsesPlace places.old.items places.new.items tag }
    ensures len { vec_len places.new + 1 ≡ vec_len places.old }
{
    match place_of(places, tag) {
        Some(index) => {
            places.remove(index);
        }
        None => {}
    }
}

/// The first place of the tag.
fn place_of(places: &[u64], tag: u64) -> Option<usize>
    ensures { result ≡ position (λ place. place == tag) places.now }
{
    places.iter().position(|place| *place == tag)
}
