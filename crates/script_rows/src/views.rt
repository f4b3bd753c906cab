use mc_packet::{CacheView, Ending, Pos, RangeView, RangeViews, Spans};
use rows::{Json, RowError, items_in, number_in, three, two};
use rows_packets::place_in;
use std::alloc::Global;

/// A look at a cache whose film was read from its beginning to a clean end: the octets ahead and
/// behind, and then the ranges.
pub fn view_in(alloc: Global, parts: &[Json<'_>]) -> Result<CacheView, RowError> {
    let (forward, back, ranges) = three(parts)?;
    Ok(CacheView {
        ranges: ranges_in(alloc, ranges)?,
        forward: u64::try_from(number_in(forward)?)?,
        back: u64::try_from(number_in(back)?)?,
        bof: true,
        ending: Some(Ending::Clean),
        time: None,
        playing: false,
        ended: false,
    })
}

fn ranges_in(alloc: Global, argument: &Json<'_>) -> Result<RangeViews, RowError> {
    let mut ranges = RangeViews::new(alloc);
    for range in items_in(argument)? {
        ranges.push(range_in(range)?)?;
    }
    Ok(ranges)
}

// Its bounds, and then what it holds of video, audio and subtitles.
fn range_in(argument: &Json<'_>) -> Result<RangeView, RowError> {
    let [bounds, video, audio, sub] = items_in(argument)? else {
        return Err(RowError::BadRow);
    };
    let spans = Spans {
        video: span_in(video)?,
        audio: span_in(audio)?,
        sub: span_in(sub)?,
    };
    Ok(RangeView {
        bounds: bounds_in(bounds)?,
        spans,
    })
}

fn bounds_in(argument: &Json<'_>) -> Result<Option<(i64, i64)>, RowError> {
    if let Json::Null = argument {
        return Ok(None);
    }
    let (least, greatest) = two(items_in(argument)?)?;
    Ok(Some((number_in(least)?, number_in(greatest)?)))
}

fn span_in(argument: &Json<'_>) -> Result<Option<(Pos, Pos)>, RowError> {
    if let Json::Null = argument {
        return Ok(None);
    }
    let (from, to) = two(items_in(argument)?)?;
    Ok(Some((place_in(from)?, place_in(to)?)))
}
