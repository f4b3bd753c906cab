ghost use Rattle.std.specs.Prelude.{◌≡◌, IfOk};

use mc_packet::{Kind, NoMemory, TrackNo};
use mc_value::Text;

/// A track of a film, as its TrackEntry tells it (RFC 9559, section 5.1.4.1).
#[derive(Debug, Drop)]
pub struct Track {
    /// Its TrackNumber, by which blocks name it; never 0.
    pub no: TrackNo,
    /// Its TrackUID, or 0 where it has none.
    pub uid: u64,
    /// Video, audio or subtitle.
    pub kind: Kind,
    /// Its CodecID.
    pub codec: Text,
    /// Its Name, empty where it has none.
    pub name: Text,
    /// Its Language, `eng` where it has none.
    pub language: Text,
    /// Whether its FlagDefault is set.
    pub default: bool,
    /// Its DefaultDuration: how long a frame lasts, in nanoseconds; one of 0 counts as none.
    pub duration: Option<u64>,
    /// Whether its blocks are encoded (ContentEncodings), so that they cannot be read.
    pub encoded: bool,
}

impl Track {
    /// An equal track.
    pub fn copy(&self) -> Result<Track, NoMemory>
        ensures { IfOk result (λ t. t ≡ self.now) }
    {
        Ok(Track {
            no: self.no,
            uid: self.uid,
            kind: self.kind,
            codec: self.codec.copy()?,
            name: self.name.copy()?,
            language: self.language.copy()?,
            default: self.default,
            duration: self.duration,
            encoded: self.encoded,
        })
    }
}
