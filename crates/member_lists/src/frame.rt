ghost use Rattle.std.specs.Prelude.{◌≡◌, ◌≤◌, OnOk, length, reverse, take};
ghost use Rattle.member_lists.specs.Frames.{first_frame, frame_of_function, frames_above, frames_to, outside};

use refusal::NoMemory;

/// Where an entry stands among functions and inlined calls.
#[derive(Clone, Copy, Debug)]
pub struct EntryFrame {
    /// How many inlined calls there are on its way up to the nearest function, itself included.
    pub calls: u8,
    /// The number of the function that it is or is inlined into: none where one on that way, or the
    /// function, has no pieces.
    pub function: Option<usize>,
}

impl EntryFrame {
    /// An entry below no function and no call, or a function without pieces.
    pub fn outside() -> EntryFrame
        ensures { result ≡ outside }
    {
        EntryFrame {
            calls: 0,
            function: None,
        }
    }

    /// The function of a number.
    pub(crate) fn of_function(number: usize) -> EntryFrame
        ensures { result ≡ frame_of_function number }
    {
        EntryFrame {
            calls: 0,
            function: Some(number),
        }
    }
}

/// Of frames with the depths of their entries, the outermost first, how many are of entries that
/// one at a depth stands below.
pub(crate) fn count_above(frames: &[(u32, EntryFrame)], depth: u32) -> usize
    ensures within { result ≤ length frames.now }
    ensures above { reverse (take result frames.now) ≡ frames_above depth (reverse frames.now) }
{
    let mut count = frames.len();
    while count > 0 {
        let (above, _) = frames[count - 1];
        if above < depth {
            return count;
        }
        count -= 1;
    }
    count
}

/// The frame of the entry right above one at a depth.
pub(crate) fn frame_above(frames: &[(u32, EntryFrame)], depth: u32) -> EntryFrame
    ensures { result ≡ first_frame (frames_above depth (reverse frames.now)) }
{
    let above = &frames[..count_above(frames, depth)];
    match above.last() {
        Some((_, frame)) => *frame,
        None => EntryFrame::outside(),
    }
}

/// Puts the frame of an entry at a depth behind those of the entries that it stands below.
pub(crate) fn put(
    frames: &mut Vec<(u32, EntryFrame)>,
    depth: u32,
    frame: EntryFrame,
) -> Result<(), NoMemory>
    ensures { OnOk result
        (reverse frames.new.items ≡ frames_to depth frame (reverse frames.old.items)) }
{
    frames.truncate(count_above(frames, depth));
    frames.push((depth, frame))?;
    Ok(())
}
