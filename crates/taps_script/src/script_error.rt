use taps_base::NoMemory;

/// Why a text gave no script.
#[derive(Clone, Copy, Debug, PartialEq, Eq)]
pub enum ScriptError {
    /// The first bad line, counted from 1.
    Line(u64),
    /// Memory ran out.
    NoMemory,
}

impl From<NoMemory> for ScriptError {
    ghost use Rattle.std.specs.Prelude.{◌≡◌};
    ghost use Rattle.taps_script.specs.declared.script_error.ScriptError.TheVariants as error;

    ghost from_gives = { λ _ e. e ≡ error.NoMemory };

    fn from(_: NoMemory) -> ScriptError {
        ScriptError::NoMemory
    }
}
