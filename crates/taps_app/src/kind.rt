ghost use Rattle.std.specs.Prelude.{◌≡◌};
ghost use Rattle.taps_app.specs.Kinds as kinds;

/// The commands.
#[derive(Clone, Copy, Debug, PartialEq, Eq)]
pub enum Kind {
    Plan,
    Sim,
    Run,
    Frame,
    Unframe,
}

/// The command of a word.
pub fn kind_of(word: &str) -> Option<Kind>
    ensures { result ≡ kinds.kind_of word.now }
{
    match word {
        "plan" => Some(Kind::Plan),
        "sim" => Some(Kind::Sim),
        "run" => Some(Kind::Run),
        "frame" => Some(Kind::Frame),
        "unframe" => Some(Kind::Unframe),
        _ => None,
    }
}
