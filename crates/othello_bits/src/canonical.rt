//! The least of a position's eight images.

ghost use Rattle.std.specs.Prelude.{◌≡◌, ◌≤◌, ◌<◌, if◌then◌else◌};
ghost use Rattle.othello_bits.specs.Symmetries.{place};
ghost use Rattle.othello_bits.specs.Images.{image_with, key, is_less};
ghost use Rattle.othello_bits.specs.declared.sym.Sym.{Sym};

use crate::sym::Sym;

// The masks of an image, and the symmetry that leads to it.
#[derive(Clone, Copy)]
pub(crate) struct Image {
    pub(crate) own: u64,
    pub(crate) opp: u64,
    pub(crate) sym: Sym,
}

impl Image {
    #[inline(always)]
    fn new(own: u64, opp: u64, sym: Sym) -> Image
        ensures { result ≡ image_with own opp sym }
    {
        Image {
            own: sym.mask(own),
            opp: sym.mask(opp),
            sym,
        }
    }

    // The other image if its pair (own, opp) is less, own compared first; otherwise this image.
    #[inline(always)]
    fn least(self, other: Image) -> Image
        ensures { result ≡ (if is_less other self then other else self) }
    {
        if other.own < self.own || (other.own == self.own && other.opp < self.opp) {
            other
        } else {
            self
        }
    }

    // The lesser of the images under two symmetries. If they are equal, the symmetry is `first`.
    #[inline(always)]
    fn lesser(own: u64, opp: u64, first: Sym, second: Sym) -> Image
        ensures { let one = image_with own opp first in let other = image_with own opp second in
            result ≡ (if is_less other one then other else one) }
    {
        Image::new(own, opp, first).least(Image::new(own, opp, second))
    }

    // The least image, with the first symmetry that leads to it. Two images at a time are compared,
    // in the order of the symmetries.
    #[inline(always)]
    pub(crate) fn canonical(own: u64, opp: u64) -> Image
        ensures leads { result ≡ image_with own opp result.sym }
        ensures least { (s : Sym) → key result ≤ key (image_with own opp s) }
        ensures first { (s : Sym) → place s < place result.sym
            → key result < key (image_with own opp s) }
    {
        let straight = Image::lesser(own, opp, Sym::Identity, Sym::FlipColumns);
        let turned = Image::lesser(own, opp, Sym::FlipRows, Sym::HalfTurn);
        let right = Image::lesser(own, opp, Sym::Transpose, Sym::TurnRight);
        let left = Image::lesser(own, opp, Sym::TurnLeft, Sym::AntiTranspose);
        straight.least(turned).least(right.least(left))
    }
}
