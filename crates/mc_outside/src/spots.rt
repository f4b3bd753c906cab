ghost use Rattle.std.specs.Prelude.{◌≡◌, ◌<◌, ◌+◌, OnSome};
ghost use Rattle.std.specs.List.{position_from};
ghost use Rattle.mc_outside.specs.Spots.{is_asked, meets_spot, left_of};

use sqlite_items::Items;

/// Places at which reads fail: a file's place in its list, and an octet's place in the file.
pub type Spots = Items<(u32, u64)>;

// Whether a read of some octets of a file from a place on asks for the octet of a spot.
fn asks(spot: &(u32, u64), file: u32, pos: u64, len: u64) -> bool
    ensures { result ≡ is_asked file pos len spot.now }
{
    spot.0 == file && pos <= spot.1 && spot.1 - pos < len
}

fn first_asked(spots: &[(u32, u64)], file: u32, pos: u64, len: u64) -> Option<usize>
    ensures { result ≡ position_from (is_asked file pos len) 0 spots.now }
{
    spots.iter().position(|spot| asks(spot, file, pos, len))
}

/// Removes the spots for which a read of some octets of a file from a place on asks, and answers
/// whether there were any.
pub(crate) fn spend(spots: &mut Spots, file: u32, pos: u64, len: u64) -> bool
    ensures value { result ≡ meets_spot file pos len spots.old }
    ensures left { spots.new ≡ left_of file pos len spots.old }
{
    let mut spent = false;
    while let Some(place) = first_asked(spots.as_slice(), file, pos, len) {
        spots.remove(place);
        spent = true;
    }
    spent
}
