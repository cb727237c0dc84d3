ghost use Rattle.taps_endpoint.specs.UnixTexts.{step_unix, at_end_unix, IsAny};
ghost use Rattle.taps_endpoint.specs.declared.unix.Unfinished.TheVariants.{Start};

use crate::UnixPath;
use crate::machine::Machine;
use crate::path_bytes::PathBytes;

/// How much of `unix:` was read, or the path behind it.
#[derive(Drop)]
pub enum Unfinished {
    Start,
    U,
    Un,
    Uni,
    Unix,
    Path(PathBytes),
}

impl Machine for Unfinished {
    type Value = UnixPath;

    ghost step = { step_unix };

    ghost at_end = { at_end_unix };

    ghost is_small = { IsAny };

    ghost start = { Start };

    fn begin() -> Self {
        Unfinished::Start
    }

    #[tactic(auto, unfolding(crate::specs::UnixTexts::step_unix))]
    fn advance(&mut self, byte: u8) -> bool {
        match self {
            Unfinished::Start => {
                if byte == b'u' {
                    *self = Unfinished::U;
                    return true;
                }
                false
            }
            Unfinished::U => {
                if byte == b'n' {
                    *self = Unfinished::Un;
                    return true;
                }
                false
            }
            Unfinished::Un => {
                if byte == b'i' {
                    *self = Unfinished::Uni;
                    return true;
                }
                false
            }
            Unfinished::Uni => {
                if byte == b'x' {
                    *self = Unfinished::Unix;
                    return true;
                }
                false
            }
            Unfinished::Unix => {
                if byte == b':' {
                    *self = Unfinished::Path(PathBytes::new());
                    return true;
                }
                false
            }
            Unfinished::Path(path) => {
                if path.count() < 107 && byte >= 33 && byte <= 126 {
                    path.push(byte);
                    return true;
                }
                false
            }
        }
    }

    #[tactic(auto, unfolding(crate::specs::UnixTexts::at_end_unix))]
    fn finish(&self) -> Option<Self::Value> {
        match self {
            Unfinished::Start => None,
            Unfinished::U => None,
            Unfinished::Un => None,
            Unfinished::Uni => None,
            Unfinished::Unix => None,
            Unfinished::Path(path) => {
                if path.count() >= 1 {
                    return Some(path.whole());
                }
                None
            }
        }
    }
}
