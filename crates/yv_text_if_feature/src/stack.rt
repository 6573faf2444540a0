//! What is known outside of the parentheses that are open.
ghost use Rattle.std.specs.Prelude.{◌≡◌, ◌<◌, [], ◌∷◌, length, MatchOption};

use crate::frame::Frame;
use std::marker::Model;

/// How deep parentheses may nest.
pub const MOST_OPEN: usize = 64;

/// A frame for each parenthesis that is open: what is known outside of it.
#[derive(Drop)]
pub struct Stack {
    frames: [Frame; MOST_OPEN],
    len: usize,
}

impl Model for Stack {
    ghost use Rattle.std.specs.Prelude.{◌≤◌, List};
    ghost use Rattle.yv_text_if_feature.specs.{InnerFrames.{frames_below}, declared.frame.Frame.{Frame}};

    ghost Value = { List Frame };

    ghost view = { λ s. frames_below s.frames s.len };

    ghost invariant = { λ s. s.len ≤ 64 };
}

impl Stack {
    pub fn new() -> Stack
        ensures { result ≡ [] }
    {
        Stack {
            frames: [Frame::empty(); MOST_OPEN],
            len: 0,
        }
    }

    pub fn len(&self) -> usize
        ensures { result ≡ length self.now }
    {
        self.len
    }

    pub fn push(&mut self, frame: Frame)
        requires { length self.old < 64 }
        ensures { self.new ≡ frame ∷ self.old }
    {
        self.frames[self.len] = frame;
        self.len += 1;
    }

    pub fn pop(&mut self) -> Option<Frame>
        ensures { MatchOption result ((self.old ≡ []) × (self.new ≡ []))
            (λ f. self.old ≡ f ∷ self.new) }
    {
        if self.len == 0 {
            return None;
        }
        self.len -= 1;
        Some(self.frames[self.len])
    }
}
