// Switching on over a caller's image: what the image then holds, bit by bit, through code that knows the interface alone.
#![tactic(auto)]

ghost use Rattle.std.specs.Prelude.{◌≡◌, ℕ, length, is_ok};
ghost use Rattle.bits.specs.Image.{bit};
ghost use Rattle.packed.specs.Frame.{well_formed};
ghost use Rattle.packed.specs.Layout.{fitted_over};
ghost use Rattle.startup_packed.specs.Bits.{started_bit};

use backplane::configuration::Fittings;
use backplane::interface::Unread;
use packed::held::Packed;
use startup::switch_on;

// Makes a packed backplane over the image and switches it on. A frame that reads as nothing is refused, and the image is as it was.
pub fn switch_on_packed(fittings: Fittings, image: &mut [u8], frame: &[u8]) -> Result<(), Unread>
    ensures says { is_ok result ≡ well_formed (fitted_over fittings.entry image.old) frame.now }
    ensures bits { (k : ℕ) → bit image.new k ≡ started_bit (fitted_over fittings.entry image.old) frame.now image.old k }
    ensures size { length image.new ≡ length image.old }
{
    let mut b = Packed::new(fittings, image);
    switch_on(&mut b, frame)
}
