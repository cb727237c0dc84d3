ghost use Rattle.std.specs.Prelude.{[], List};
ghost use Rattle.taps_framer.specs.Layers.{Layer};

use std::marker::Brand;

/// What the framers of the shelf mean: a word of contracts alone, which the top call fixes.
pub trait Layers {
    ghost layers: { List Layer };
}

impl Layers for Brand {
    ghost layers = { [] };
}
