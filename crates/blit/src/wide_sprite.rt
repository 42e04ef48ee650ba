// A sprite with its row of bits as wide as it is shown, in a file of its own: what a ghost field cites cannot name its struct.
ghost use Rattle.std.specs.Prelude.{◌≤◌};
ghost use Rattle.sprites.specs.Pixels.{visible};

use sprites::Sprite;

#[derive(Clone, Copy)]
pub struct WideSprite {
    pub sprite: Sprite,
    pub row: u32,
    ghost near: { sprite.first ≤ visible 255 },
}
