ghost use Rattle.std.specs.Prelude.{◌≡◌, ◌+◌, ◌<◌, ◌^◌, length, IfSome};
ghost use Rattle.mc_ebml.specs.Whole.{LiesIn};
ghost use Rattle.mc_tracks.specs.Children.{children_of, first};
ghost use Rattle.mc_tracks.specs.Header.{body_of, integer, text, unless_broken};

use crate::children::{Master, find_broken, find_child};
use crate::refused::Refused;
use mc_ebml::{WholeElement, read_text, read_uint};

// The longest text that is kept, in octets of its body.
const LONGEST_TEXT: usize = 65_536;

// Refuses a body that has a broken child; its place is told as an offset in the file.
pub fn check_children(master: Master, body: &[u8], at: u64) -> Result<(), Refused>
    requires { at + length body.now < 2 ^ 64 }
    ensures { result ≡ unless_broken at (children_of master body.now).broken }
{
    match find_broken(master, body) {
        Some(place) => Err(Refused::Broken(at + place as u64)),
        None => Ok(()),
    }
}

// The body of a child.
pub fn body_of(octets: &[u8], child: WholeElement) -> &[u8]
    requires { LiesIn (length octets.now) child }
    ensures { result.now ≡ body_of octets.now child }
{
    &octets[child.at..child.stop]
}

// The unsigned integer in the first child of an ID, or its default where that is missing or empty.
pub fn find_integer(master: Master, body: &[u8], id: u32, otherwise: u64) -> u64
    ensures { result ≡ integer body.now otherwise (first id (children_of master body.now).whole) }
{
    integer_in(body, find_child(master, body, id), otherwise)
}

fn integer_in(body: &[u8], child: Option<WholeElement>, otherwise: u64) -> u64
    requires { IfSome child (λ c. LiesIn (length body.now) c) }
    ensures { result ≡ integer body.now otherwise child }
{
    match child {
        Some(child) if child.at != child.stop => {
            read_uint(body_of(body, child)).unwrap_or(otherwise)
        }
        _ => otherwise,
    }
}

// The text in the first child of an ID, or its default where that is missing. A text that is not
// UTF-8 or too long is taken as empty.
pub fn find_text<'a>(master: Master, body: &'a [u8], id: u32, otherwise: &'static str) -> &'a str
    ensures { let child = first id (children_of master body.now).whole in
        result.now ≡ text body.now otherwise.now child }
{
    text_in(body, find_child(master, body, id), otherwise)
}

fn text_in<'a>(body: &'a [u8], child: Option<WholeElement>, otherwise: &'static str) -> &'a str
    requires { IfSome child (λ c. LiesIn (length body.now) c) }
    ensures { result.now ≡ text body.now otherwise.now child }
{
    match child {
        Some(child) if child.stop - child.at > LONGEST_TEXT => "",
        Some(child) => read_text(body_of(body, child)).unwrap_or(""),
        None => otherwise,
    }
}
