//! Events that take no memory, and what becomes of an event that is pushed.
ghost use Rattle.std.specs.Prelude.{◌≡◌, IsTrue};
ghost use Rattle.std.specs.Option.{option_map};
ghost use Rattle.mc_ring.specs.Event.{enters_ring};
ghost use Rattle.mc_player.specs.declared.record.CoreRecord.TheVariants.{Pushed as PushRecord};
ghost use Rattle.mc_deeds.specs.Signals.{event_of, fate};

use mc_client::Pushed;
use mc_dispatch::ClientNo;
use mc_player::CoreRecord;
use mc_ring::Event;

/// An event that takes no memory.
#[derive(Clone, Copy, Debug, PartialEq, Eq)]
pub enum Signal {
    /// A file is opened.
    StartFile,
    /// It was opened.
    FileLoaded,
    /// A seek was served.
    Seek,
    /// Reading goes on behind a file's opening or a seek.
    Restart,
    /// The file ends, since the player does.
    EndFile,
    /// The player ends.
    Shutdown,
}

impl Signal {
    /// The event itself.
    pub fn event(self) -> Event
        ensures value { result ≡ event_of self }
        ensures kind { IsTrue (enters_ring result) }
    {
        match self {
            Signal::StartFile => Event::StartFile,
            Signal::FileLoaded => Event::FileLoaded,
            Signal::Seek => Event::Seek,
            Signal::Restart => Event::PlaybackRestart,
            Signal::EndFile => Event::EndFile { reason: 3 },
            Signal::Shutdown => Event::Shutdown,
        }
    }
}

fn fate(pushed: Pushed) -> Option<bool>
    ensures { result ≡ fate pushed }
{
    match pushed {
        Pushed::Kept => Some(true),
        Pushed::Dropped(_) => Some(false),
        Pushed::Off(_) => None,
    }
}

/// The record of a push, unless the event is switched off.
pub fn noted(by: u32, client: ClientNo, event: Event, pushed: Pushed) -> Option<CoreRecord>
    ensures { result ≡ option_map (PushRecord by client event) (fate pushed) }
{
    match fate(pushed) {
        Some(kept) => Some(CoreRecord::Pushed {
            by,
            client,
            event,
            kept,
        }),
        None => None,
    }
}
