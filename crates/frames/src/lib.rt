// Open frames in the work area: eleven words a frame, from word 0 on. The port of `TermFrame` in surface/parser.rs.
#![tactic(auto)]

ghost use Rattle.std.specs.Prelude.{◌≡◌, ◌+◌, ◌*◌, ◌<◌, get_or};
ghost use Rattle.frames.specs.Frames.{HasFrame, frame_label, frame_args, frame_count, term_frame, frame_at, opened, pushed};

use terms::Label;

// The words of a frame.
const FRAME: usize = 11;

// A form that is open: what is kept of it, the rows of its arguments, and how many of these are complete.
#[derive(Clone, Copy)]
pub struct TermFrame {
    pub label: Label,
    pub args: [u32; 6],
    pub len: u32,
}

// Opens the frame number depth.
#[tactic(auto, unfolding(crate::specs::Frames::opened))]
pub fn open_frame(work: &mut [u32], depth: usize, label: Label)
    requires { HasFrame work.old depth }
    ensures { work.new ≡ opened work.old depth label }
{
    let Label {
        kind,
        start,
        length,
        offset,
    } = label;
    let words = [kind, start, length, offset, 0, 0, 0, 0, 0, 0, 0];
    tables::put(work, depth * FRAME, &words);
}

// The row of one more argument of the frame number depth, in place.
#[tactic(auto, unfolding(crate::specs::Frames::pushed))]
pub fn push_arg(work: &mut [u32], depth: usize, id: u32)
    requires has_frame { HasFrame work.old depth }
    requires depth_bound { frame_count work.old (depth * 11) < 6 }
    ensures { work.new ≡ pushed work.old depth id }
{
    let at = depth * FRAME;
    let n = work[at + 4];
    let place = at + 5 + n as usize;
    work[place] = id;
    work[at + 4] = n + 1;
}

// Word i of the frame number depth.
fn frame_word(work: &[u32], depth: usize, i: usize) -> u32
    requires has_frame { HasFrame work.now depth }
    requires i_bound { i < 11 }
    ensures { result ≡ get_or work.now (depth * 11 + i) 0 }
{
    let at = depth * FRAME;
    work[at + i]
}

#[tactic(auto, unfolding(crate::specs::Frames::frame_at))]
pub fn frame_kind(work: &[u32], depth: usize) -> u32
    requires { HasFrame work.now depth }
    ensures { result ≡ (frame_at work.now depth).label.kind }
{
    frame_word(work, depth, 0)
}

pub fn frame_len(work: &[u32], depth: usize) -> u32
    requires { HasFrame work.now depth }
    ensures { result ≡ frame_count work.now (depth * 11) }
{
    frame_word(work, depth, 4)
}

fn load_label(work: &[u32], depth: usize) -> Label
    requires { HasFrame work.now depth }
    ensures { result ≡ frame_label work.now (depth * 11) }
{
    Label {
        kind: frame_word(work, depth, 0),
        start: frame_word(work, depth, 1),
        length: frame_word(work, depth, 2),
        offset: frame_word(work, depth, 3),
    }
}

fn load_args(work: &[u32], depth: usize) -> [u32; 6]
    requires { HasFrame work.now depth }
    ensures { result ≡ frame_args work.now (depth * 11) }
{
    [
        frame_word(work, depth, 5),
        frame_word(work, depth, 6),
        frame_word(work, depth, 7),
        frame_word(work, depth, 8),
        frame_word(work, depth, 9),
        frame_word(work, depth, 10),
    ]
}

pub fn load_frame(work: &[u32], depth: usize) -> TermFrame
    requires { HasFrame work.now depth }
    ensures { result ≡ term_frame work.now depth }
{
    TermFrame {
        label: load_label(work, depth),
        args: load_args(work, depth),
        len: frame_len(work, depth),
    }
}
