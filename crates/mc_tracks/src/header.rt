ghost use Rattle.std.specs.Prelude.{◌≡◌, ◌≤◌, length, IfOk};
ghost use Rattle.mc_tracks.specs.Children.{children_of};
ghost use Rattle.mc_tracks.specs.Header.{asks_more, is_matroska, header_checked, ebml_header_of};

use crate::children::{Master, find_broken};
use crate::fields::{body_of, find_integer, find_text};
use crate::refused::Refused;
use mc_ebml::{ids, read_element};

/// The offset behind the EBML header with which a film begins (RFC 8794, section 11.2).
///
/// `NotEbml` where the first element is no EBML header of known size that lies within the octets,
/// or where a child of it has a bad head, has no size, runs past its end, or is an integer that is
/// read and has more than 8 octets. `Version` where EBMLReadVersion is above 1, EBMLMaxIDLength
/// above 4, EBMLMaxSizeLength above 8, or DocTypeReadVersion above 4. Then `DocType` where DocType
/// is neither `matroska` nor `webm`.
#[tactic(auto, unfolding(crate::specs::Header::ebml_header_of))]
pub fn parse_ebml_header(bytes: &[u8]) -> Result<usize, Refused>
    ensures value { result ≡ ebml_header_of bytes.now }
    ensures within { IfOk result (λ n. n ≤ length bytes.now) }
{
    let header = match read_element(bytes, 0) {
        Some(header) if header.id == ids::EBML_HEADER => header,
        _ => return Err(Refused::NotEbml),
    };
    check_header(body_of(bytes, header))?;
    Ok(header.stop)
}

// Whether a film whose EBML header has this body is read.
fn check_header(body: &[u8]) -> Result<(), Refused>
    ensures { result ≡ header_checked body.now (children_of Master.EbmlHeader body.now) }
{
    if find_broken(Master::EbmlHeader, body).is_some() {
        return Err(Refused::NotEbml);
    }
    if asks_more(body) {
        return Err(Refused::Version);
    }
    if !is_matroska(find_text(Master::EbmlHeader, body, ids::DOC_TYPE, "")) {
        return Err(Refused::DocType);
    }
    Ok(())
}

// Whether the film asks for more than this reader knows.
fn asks_more(body: &[u8]) -> bool
    ensures { result ≡ asks_more body.now (children_of Master.EbmlHeader body.now).whole }
{
    let integer = |id: u32, otherwise: u64| find_integer(Master::EbmlHeader, body, id, otherwise);
    integer(ids::EBML_READ_VERSION, 1) > 1
        || integer(ids::EBML_MAX_ID_LENGTH, 4) > 4
        || integer(ids::EBML_MAX_SIZE_LENGTH, 8) > 8
        || integer(ids::DOC_TYPE_READ_VERSION, 1) > 4
}

fn is_matroska(doc_type: &str) -> bool
    ensures { result ≡ is_matroska doc_type.now }
{
    doc_type == "matroska" || doc_type == "webm"
}
