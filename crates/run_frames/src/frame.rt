//! What is kept of a node.

ghost use Rattle.std.specs.Prelude.{◌≡◌, []};
ghost use Rattle.run_frames.specs.Fresh.{fresh};
ghost use Rattle.run_frames.specs.Told.{told, frame_at, stage_in, left_in, is_picks};

use exec_tree::Kind;

/// What a node has in its present turn.
#[derive(Clone, Copy, Debug, PartialEq, Eq)]
pub enum Frame {
    /// A workingstep before its dispatch.
    Starts,
    /// A workingstep with so many blocks since its dispatch.
    Cuts(usize),
    /// A leaf before its entry.
    Fresh,
    /// A workingstep or a leaf that is over.
    Over,
    /// A non-sequential or a selective. Its picks are kept beside the frames.
    Picks,
    /// An if or a while before its test.
    Asks,
    /// An if or a while after a test with this answer.
    Answered(bool),
    /// A parallel of which so many elements go on.
    Left(usize),
}

/// The frame of an executable that isn't come to.
pub fn fresh(kind: Kind) -> Frame
    ensures { told result [] ≡ fresh kind }
{
    match kind {
        Kind::Work => Frame::Starts,
        Kind::NonSeq | Kind::Sel => Frame::Picks,
        Kind::If | Kind::While => Frame::Asks,
        _ => Frame::Fresh,
    }
}

/// The frame at a place.
pub fn frame_at(frames: &[Frame], place: u32) -> Frame
    ensures { result ≡ frame_at frames.now place }
{
    match frames.get(place as usize) {
        Some(frame) => *frame,
        None => Frame::Over,
    }
}

/// How many blocks a workingstep has by its frame, where it is open.
pub fn stage_in(frame: Frame) -> Option<usize>
    ensures { result ≡ stage_in frame }
{
    match frame {
        Frame::Cuts(k) => Some(k),
        _ => None,
    }
}

/// How many elements of a parallel its frame says to go on.
pub fn left_in(frame: Frame) -> usize
    ensures { result ≡ left_in frame }
{
    match frame {
        Frame::Left(k) => k,
        _ => 0,
    }
}

/// Whether the frame is one of a node whose elements are picked.
pub fn is_picks(frame: Frame) -> bool
    ensures { result ≡ is_picks frame }
{
    match frame {
        Frame::Picks => true,
        _ => false,
    }
}
