//! What opening a file gives a driver: laws over every film.
ghost use Rattle.std.specs.Prelude.{◌≡◌, ℕ, List, Ok, true};
ghost use Rattle.mc_outside.specs.Shelf.{AreBytes};
ghost use Rattle.mc_packet.specs.declared.cache.Limits.{Limits};
ghost use Rattle.mc_tracks.specs.declared.track.Track.{Track};
ghost use Rattle.mc_tracks.specs.TrackList.{IsTrackList, default_choice_of};
ghost use Rattle.mc_walk.specs.declared.plan.Plan.{Plan};
ghost use Rattle.mc_walk.specs.Opening.{opened_film};
ghost use Rattle.mc_walk.specs.Parts.{opening_mark};
ghost use Rattle.mc_packet.specs.Choices.{is_known};
ghost use Rattle.mc_journal.specs.Films.{IsFilm};
ghost use Rattle.mc_cursor.specs.declared.cursor.Cursor.{Cursor};
ghost use Rattle.mc_cursor.specs.Standing.{StandsFor as CursorStandsFor, plan_for};
ghost use Rattle.mc_index.specs.declared.index.Index.{Index};
ghost use Rattle.mc_filmed.specs.Films.{plan_packets, film_for};
ghost use Rattle.mc_index.specs.Scans.{IsIndexOf, IsPlan};
ghost use Rattle.mc_calls.specs.State.{DemuxState};
ghost use Rattle.mc_calls.specs.Film.{StandsFor};
ghost use Rattle.mc_calls.specs.Opening.{HasTracks, IsOpened};
ghost use Rattle.mc_calls.specs.Selecting.{knows};
ghost use Rattle.mc_jobs.specs.Driving.{StandTogether};

/// The packets of a film of octets are a film's list: their places rise, their lanes are small, and
/// only frame 0 of a block is a sync point.
pub fn film_lists()
    ensures { (plan : Plan) → IsPlan plan → AreBytes plan.octets → IsFilm (plan_packets plan) }
{}

/// A demuxer of a film's tracks has the tracks of the film that it tells of, and those that are
/// played at first are among them. The film that opens is over the octets that it was opened from.
pub fn film_tracks()
    ensures tracks { (plan : Plan) → IsPlan plan → AreBytes plan.octets
        → HasTracks plan.tracks (film_for plan) }
    ensures choice { (tracks : List Track) → IsTrackList tracks
        → is_known (knows tracks) (default_choice_of tracks) ≡ true }
    ensures opens { (octets : List ℕ) (plan : Plan) → opened_film octets ≡ Ok plan
        → IsPlan plan × (plan.octets ≡ octets) }
{}

/// A demuxer that was just made, beside a cursor at the film's opening and an index of the film, is
/// a driver that stands for the film: its one range is read on from the opening, and nothing led
/// before.
pub fn driver_begins()
    ensures { (octets : List ℕ) (limits : Limits) (c : Cursor) (x : Index) (d : DemuxState)
        → CursorStandsFor octets c → c.mark ≡ opening_mark → IsIndexOf (plan_for octets c) x
        → IsOpened c.tracks (default_choice_of c.tracks) limits d
        → StandsFor (film_for (plan_for octets c)) d → StandTogether octets d c x }
{}
